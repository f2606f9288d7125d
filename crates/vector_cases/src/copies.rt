// Copies and fills over 26 letters, and overlaps.
use crate::show;
use std::io;
use vectors::bytes;
use vectors::vector::IoVector;

fn letters() -> [u8; 26] {
    *b"abcdefghijklmnopqrstuvwxyz"
}

// cde, ijkl, uvwxy
fn three() -> IoVector {
    show::more(show::more(show::one(2, 3), 8, 4), 20, 5)
}

fn into(rt: &impl Print, label: &str, v: IoVector, slice: &mut [u8]) -> io::Result<()> {
    let data = letters();
    let done = v.copy_into_slice(&data, slice);
    show::bytes(rt, label, done, slice)
}

pub fn into_slice(rt: &impl Print) -> io::Result<()> {
    into(rt, "copy into 12 bytes", three(), &mut [46u8; 12])?;
    into(rt, "copy into 11 bytes", three(), &mut [46u8; 11])?;
    into(rt, "copy into 13 bytes", three(), &mut [46u8; 13])?;
    into(
        rt,
        "copy of a segment one past the data",
        show::one(25, 2),
        &mut [46u8; 2],
    )
}

fn from(rt: &impl Print, label: &str, v: IoVector, slice: &[u8]) -> io::Result<()> {
    let mut data = letters();
    let done = v.copy_from_slice(&mut data, slice);
    show::bytes(rt, label, done, &data)
}

pub fn from_slice(rt: &impl Print) -> io::Result<()> {
    from(rt, "copy from 11 bytes", three(), b"ABCDEFGHIJK")?;
    from(rt, "copy from 12 bytes", three(), b"ABCDEFGHIJKL")?;
    from(rt, "copy from 13 bytes", three(), b"ABCDEFGHIJKLM")?;
    from(
        rt,
        "copy over two that overlap",
        show::more(show::one(0, 4), 2, 4),
        b"ABCDEFGH",
    )?;
    from(rt, "copy from nothing", IoVector::new(), b"")
}

fn fill(rt: &impl Print, label: &str, v: IoVector) -> io::Result<()> {
    let mut data = letters();
    let done = v.fill(&mut data, 46);
    show::bytes(rt, label, done, &data)
}

pub fn fills(rt: &impl Print) -> io::Result<()> {
    fill(rt, "fill", three())?;
    fill(rt, "fill one past the data", show::one(20, 7))?;
    let mut eight = [65u8; 8];
    bytes::fill_bytes(&mut eight, 46);
    print!(rt; "fill eight bytes: ")?;
    rt.write_all(&eight)?;
    println!(rt)
}

fn own(rt: &impl Print, label: &str, buffer: &mut [u8]) -> io::Result<()> {
    let data = letters();
    let done = three().try_into_owned(&data, buffer);
    show::bytes(rt, label, done, buffer)
}

pub fn owned(rt: &impl Print) -> io::Result<()> {
    own(rt, "own in 13 bytes", &mut [46u8; 13])?;
    own(rt, "own in 12 bytes", &mut [46u8; 12])?;
    own(rt, "own in 11 bytes", &mut [46u8; 11])
}

fn overlap(
    rt: &impl Print,
    label: &str,
    v: IoVector,
    start: usize,
    length: usize,
) -> io::Result<()> {
    show::yes_no(rt, label, v.overlaps(show::one(start, length)))
}

pub fn overlaps(rt: &impl Print) -> io::Result<()> {
    let v = show::one(4, 4);
    overlap(rt, "overlap with one before", v, 0, 4)?;
    overlap(rt, "overlap of one byte before", v, 0, 5)?;
    overlap(rt, "overlap with one behind", v, 8, 1)?;
    overlap(rt, "overlap of one byte behind", v, 7, 1)?;
    overlap(rt, "overlap of three with the gap", three(), 5, 3)?;
    overlap(
        rt,
        "overlap of three with the gap and one byte",
        three(),
        12,
        9,
    )?;
    overlap(rt, "overlap of nothing", IoVector::new(), 0, 9)
}

// A segment that ends past 2^64 - 1.
pub fn past_the_end(rt: &impl Print) -> io::Result<()> {
    let mut v = show::one(4, 4);
    v.segments[0].start = 18446744073709551615;
    show::yes_no(rt, "overlap at the end of the numbers", v.overlaps(v))?;
    overlap(rt, "overlap of that with the first bytes", v, 0, 9)
}

pub fn overlaps_itself(rt: &impl Print) -> io::Result<()> {
    show::yes_no(rt, "three overlap", three().overlaps_itself())?;
    show::yes_no(
        rt,
        "three and a touching one overlap",
        show::more(three(), 5, 3).overlaps_itself(),
    )?;
    show::yes_no(
        rt,
        "three and a byte of the last overlap",
        show::more(three(), 24, 1).overlaps_itself(),
    )?;
    show::yes_no(
        rt,
        "one twice overlap",
        show::more(show::one(9, 1), 9, 1).overlaps_itself(),
    )
}
