// Splits of three segments, over data of 26 bytes.
use crate::show;
use std::io;
use vectors::vector::IoVector;

fn split(rt: &impl Print, v: IoVector, mid: u64, data_len: usize) -> io::Result<()> {
    show::halves(rt, v, mid, v.split_at(mid, data_len))
}

fn tail(rt: &impl Print, v: IoVector, mid: u64, data_len: usize) -> io::Result<()> {
    show::tail(rt, v, mid, v.split_tail_at(mid, data_len))
}

// Of 3, 4 and 5 bytes.
fn three() -> IoVector {
    show::more(show::more(show::one(2, 3), 8, 4), 20, 5)
}

// Of 3, 4 and 7: at half lie two segments before the split, and one behind it.
fn uneven() -> IoVector {
    show::more(show::more(show::one(2, 3), 8, 4), 19, 7)
}

pub fn all(rt: &impl Print) -> io::Result<()> {
    let v = three();
    for mid in [0, 1, 2, 3, 4, 6, 7, 8, 11, 12, 13, u64::MAX] {
        split(rt, v, mid, 26)?;
    }
    Ok(())
}

pub fn edges(rt: &impl Print) -> io::Result<()> {
    let v = three();
    split(rt, IoVector::new(), 0, 26)?;
    split(rt, IoVector::new(), 1, 26)?;
    split(rt, v, 3, 24)?;
    for mid in [6, 7, 8] {
        split(rt, uneven(), mid, 26)?;
    }
    for mid in [0, 3, 4, 7, 12, 13] {
        tail(rt, v, mid, 26)?;
    }
    tail(rt, v, 3, 24)
}
