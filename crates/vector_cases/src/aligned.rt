// is_aligned, over data at an address.
use crate::show;
use arithmetic::settings::{Alignments, Lent};
use std::io;
use vectors::vector::{IoVector, Segment};

// With alignments M and R, over 8,192 bytes at the address.
fn ask(
    rt: &impl Print,
    label: &str,
    v: IoVector,
    mem: u64,
    req: u64,
    address: u64,
) -> io::Result<()> {
    let align = Alignments {
        mem,
        req,
        zero: 1,
        discard: 1,
    };
    let data = Lent {
        address,
        length: 8192,
    };
    show::alignment(rt, label, v.is_aligned(align, data))
}

pub fn answers(rt: &impl Print) -> io::Result<()> {
    let v = show::one(512, 1024);
    ask(rt, "M 512, R 512, address 4096", v, 512, 512, 4096)?;
    ask(rt, "M 512, R 512, address 4097", v, 512, 512, 4097)?;
    ask(rt, "M 1, R 512, address 4097", v, 1, 512, 4097)?;
    ask(rt, "M 1, R 1, address 4097", v, 1, 1, 4097)?;
    ask(rt, "M 3", v, 3, 512, 4096)?;
    ask(rt, "M 131072", v, 131072, 512, 4096)?;
    ask(
        rt,
        "address and length past 2^64 - 1",
        v,
        1,
        1,
        18446744073709543424,
    )?;
    ask(
        rt,
        "address and length up to 2^64 - 1",
        v,
        1,
        1,
        18446744073709543423,
    )?;
    ask(rt, "segment one past the data", show::one(8192, 1), 1, 1, 0)?;
    ask(rt, "no segment", IoVector::new(), 4096, 4096, 1)
}

pub fn lengths(rt: &impl Print) -> io::Result<()> {
    let v = show::one(512, 1024);
    ask(rt, "M 512, R 2048", v, 512, 2048, 4096)?;
    ask(rt, "M 2048, R 512", v, 2048, 512, 0)?;
    ask(
        rt,
        "M 1, R 512, second one byte short",
        show::more(v, 0, 511),
        1,
        512,
        0,
    )?;
    ask(
        rt,
        "M 512, R 1, second one byte on",
        show::more(v, 1, 512),
        512,
        1,
        0,
    )?;
    ask(
        rt,
        "M 512, R 1, second aligned",
        show::more(v, 2048, 512),
        512,
        1,
        0,
    )
}

// Two halves of a block that touch: pushed they are one segment; a begin is handed what a host wrote.
pub fn halves(rt: &impl Print) -> io::Result<()> {
    let pushed = show::more(show::one(0, 256), 256, 256);
    ask(rt, "M 1, R 512, two halves pushed", pushed, 1, 512, 0)?;
    let mut hand = show::more(show::one(0, 256), 300, 256);
    hand.segments[1] = Segment {
        start: 256,
        length: 256,
    };
    ask(rt, "M 1, R 512, two halves by hand", hand, 1, 512, 0)
}
