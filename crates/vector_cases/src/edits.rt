// Validity, push, insert, append.
use crate::show;
use std::io;
use vectors::vector::{IoVector, Segment};

fn push(
    rt: &impl Print,
    label: &str,
    v: IoVector,
    start: usize,
    length: usize,
    data_len: usize,
) -> io::Result<()> {
    show::changed(rt, label, v, v.push(Segment { start, length }, data_len))
}

fn insert(
    rt: &impl Print,
    label: &str,
    v: IoVector,
    index: usize,
    start: usize,
    length: usize,
) -> io::Result<()> {
    show::changed(
        rt,
        label,
        v,
        v.insert(index, Segment { start, length }, 100),
    )
}

fn append(rt: &impl Print, label: &str, v: IoVector, other: IoVector) -> io::Result<()> {
    show::changed(rt, label, v, v.append(other, 2000000))
}

// n pushes of one byte, each behind the one before it: one segment.
fn side_by_side(n: usize) -> IoVector {
    (0..n).fold(IoVector::new(), |v, start| show::more(v, start, 1))
}

// n pushes of one byte, each before the one before it, the last at 0: n segments.
fn downward(n: usize) -> IoVector {
    (0..n)
        .rev()
        .fold(IoVector::new(), |v, start| show::more(v, start, 1))
}

pub fn first(rt: &impl Print) -> io::Result<()> {
    let v = IoVector::new();
    show::vector_line(rt, "new", v)?;
    show::yes_no(rt, "new is empty", v.is_empty())?;
    show::yes_no(rt, "new is valid over no data", v.is_valid(0))?;
    let w = show::one(3, 5);
    show::vector_line(rt, "one of 5 bytes", w)?;
    show::number_line(rt, "its length", w.len())?;
    show::number_line(rt, "its buffers", w.buffer_count() as u64)?;
    show::yes_no(rt, "it is empty", w.is_empty())
}

pub fn segment_limits(rt: &impl Print) -> io::Result<()> {
    let v = show::one(0, 2);
    push(rt, "push one short of the end of 8", v, 6, 1, 8)?;
    push(rt, "push up to the end of 8", v, 7, 1, 8)?;
    push(rt, "push one past the end of 8", v, 7, 2, 8)?;
    push(rt, "push behind the end of 8", v, 8, 1, 8)?;
    push(rt, "push an empty one", v, 4, 0, 8)?;
    push(
        rt,
        "push one whose end is past 2^64 - 1",
        v,
        18446744073709551615,
        1,
        8,
    )?;
    push(rt, "push to a vector outside of 1 byte", v, 0, 1, 1)
}

pub fn count_limits(rt: &impl Print) -> io::Result<()> {
    let v = downward(15);
    show::vector_line(rt, "15 segments", v)?;
    push(rt, "push the 16th", v, 15, 1, 100)?;
    let w = show::more(v, 15, 1);
    push(rt, "push the 17th", w, 17, 1, 100)?;
    insert(rt, "insert the 16th", v, 0, 15, 1)?;
    insert(rt, "insert the 17th", w, 0, 16, 1)?;
    push(rt, "push to the 16th", w, 16, 1, 100)?;
    push(rt, "push an empty one to the 16th", w, 16, 0, 100)?;
    insert(rt, "insert into 16, touching one", w, 15, 1, 1)?;
    insert(rt, "insert into 16, touching two", w, 15, 1, 14)
}

pub fn total_limits(rt: &impl Print) -> io::Result<()> {
    let v = IoVector::new();
    push(rt, "push 1048575 bytes", v, 0, 1048575, 2000000)?;
    push(rt, "push 1048576 bytes", v, 0, 1048576, 2000000)?;
    push(rt, "push 1048577 bytes", v, 0, 1048577, 2000000)?;
    let w = show::one(0, 1048575);
    push(rt, "push 1 byte more", w, 7, 1, 2000000)?;
    push(rt, "push 2 bytes more", w, 7, 2, 2000000)
}

pub fn inserts(rt: &impl Print) -> io::Result<()> {
    let v = show::more(show::one(10, 1), 20, 2);
    insert(rt, "insert at 0", v, 0, 30, 3)?;
    insert(rt, "insert at 1", v, 1, 30, 3)?;
    insert(rt, "insert at the count", v, 2, 30, 3)?;
    insert(rt, "insert past the count", v, 3, 30, 3)?;
    insert(rt, "insert an empty one", v, 1, 30, 0)
}

// Segments that touch become one.
pub fn joins(rt: &impl Print) -> io::Result<()> {
    show::vector_line(rt, "40 pushes side by side", side_by_side(40))?;
    let v = show::one(4, 2);
    push(rt, "push where the last ends", v, 6, 3, 100)?;
    push(rt, "push one behind the last", v, 7, 3, 100)?;
    push(rt, "push from inside the last", v, 5, 3, 100)?;
    push(rt, "push up to the last", v, 0, 4, 100)?;
    push(rt, "push an empty one where the last ends", v, 6, 0, 100)?;
    let full = show::one(4, 1048575);
    push(
        rt,
        "push up to 1048576 bytes in one",
        full,
        1048579,
        1,
        2000000,
    )?;
    push(
        rt,
        "push past 1048576 bytes in one",
        full,
        1048579,
        2,
        2000000,
    )
}

// At the last numbers.
pub fn high_joins(rt: &impl Print) -> io::Result<()> {
    let high = IoVector::new()
        .push(
            Segment {
                start: 18446744073709551613,
                length: 1,
            },
            18446744073709551615,
        )
        .unwrap_or(IoVector::new());
    push(
        rt,
        "push up to 2^64 - 1",
        high,
        18446744073709551614,
        1,
        18446744073709551615,
    )?;
    push(
        rt,
        "push past 2^64 - 1",
        high,
        18446744073709551614,
        2,
        18446744073709551615,
    )
}

// On either side of an insert.
pub fn insert_joins(rt: &impl Print) -> io::Result<()> {
    let v = show::more(show::one(10, 2), 16, 4);
    insert(rt, "insert where the first ends", v, 1, 12, 1)?;
    insert(rt, "insert up to the second", v, 1, 15, 1)?;
    insert(rt, "insert between the two", v, 1, 12, 4)?;
    insert(rt, "insert one short of the second", v, 1, 12, 3)?;
    insert(rt, "insert up to the first", v, 0, 9, 1)?;
    insert(rt, "insert where the last ends", v, 2, 20, 5)?;
    insert(rt, "insert an empty one where the first ends", v, 1, 12, 0)?;
    let mut hand = v;
    hand.segments[1] = Segment {
        start: 12,
        length: 4,
    };
    insert(rt, "insert before two that touch", hand, 0, 30, 1)
}

pub fn appends(rt: &impl Print) -> io::Result<()> {
    let eight = downward(8);
    let half = show::one(0, 524288);
    append(rt, "append nothing", half, IoVector::new())?;
    append(rt, "append to nothing", IoVector::new(), half)?;
    append(rt, "append 8 to 8", eight, eight)?;
    append(rt, "append 9 to 8", eight, downward(9))?;
    let last = show::one(1, 1);
    let nine = last.append(eight, 100).unwrap_or(last);
    append(
        rt,
        "append 9 to 8, the last of which it touches",
        eight,
        nine,
    )?;
    append(rt, "append up to 1048576 bytes", half, half)?;
    append(rt, "append one byte more", half, show::one(0, 524289))?;
    show::changed(
        rt,
        "append one outside of the data",
        eight,
        eight.append(half, 100),
    )
}

// Values of the type that no call returns.
pub fn values(rt: &impl Print) -> io::Result<()> {
    let v = show::more(show::one(0, 2), 4, 3);
    show::yes_no(rt, "valid over 7", v.is_valid(7))?;
    show::yes_no(rt, "valid over 6", v.is_valid(6))?;
    let mut total = v;
    total.total = 6;
    show::yes_no(rt, "valid with a total one over", total.is_valid(7))?;
    let mut hidden = v;
    hidden.count = 3;
    show::yes_no(rt, "valid with an empty segment", hidden.is_valid(7))?;
    let mut count = v;
    count.count = 17;
    show::yes_no(rt, "valid with 17 segments", count.is_valid(100))?;
    push(rt, "push to 17 segments", count, 0, 1, 100)
}
