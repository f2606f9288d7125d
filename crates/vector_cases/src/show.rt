// One line a case: a label, then the answer.
use arithmetic::refusals::Refusal;
use std::{fmt, io};
use vectors::vector::{Halves, IoVector, Segment, Tail};

// What became of a call: done, or the number of its refusal.
#[derive(Clone, Copy)]
struct Became(Option<Refusal>);

impl fmt::Display for Became {
    fn fmt<W: fmt::Write>(&self, f: &mut fmt::Formatter<W>) -> fmt::Result {
        match self.0 {
            None => f.write_str("done"),
            Some(refusal) => write!(f, "{}", refusal.number()),
        }
    }
}

// Count, total, and each segment as start+length.
#[derive(Clone, Copy)]
struct Shown<'a>(&'a IoVector);

impl fmt::Display for Shown<'_> {
    fn fmt<W: fmt::Write>(&self, f: &mut fmt::Formatter<W>) -> fmt::Result {
        let v = self.0;
        write!(f, "{} segments, {} bytes", v.count, v.total)?;
        for s in v.segments.iter().take(v.count) {
            write!(f, " {}+{}", s.start, s.length)?;
        }
        Ok(())
    }
}

pub fn vector_line(rt: &impl Print, label: &str, v: IoVector) -> io::Result<()> {
    println!(rt; "{label}: {}", Shown(&v))
}

// What a call made of v: where it is refused, v as it was.
pub fn changed(
    rt: &impl Print,
    label: &str,
    v: IoVector,
    c: Result<IoVector, Refusal>,
) -> io::Result<()> {
    println!(rt;
        "{label}: {}, {}",
        Became(c.err()),
        Shown(&v.vector_after(c))
    )
}

// The parts of v: where the split is refused, v as it was and an empty one.
pub fn halves(
    rt: &impl Print,
    v: IoVector,
    mid: u64,
    h: Result<Halves, Refusal>,
) -> io::Result<()> {
    print!(rt; "split at {mid}: {}, ", Became(h.err()))?;
    let parts = v.halves_after(h);
    println!(rt;
        "{} | {}, {} looked at",
        Shown(&parts.head),
        Shown(&parts.tail),
        parts.looked
    )
}

// The tail of v: where the split is refused, v as it was.
pub fn tail(rt: &impl Print, v: IoVector, mid: u64, t: Result<Tail, Refusal>) -> io::Result<()> {
    print!(rt; "tail from {mid}: {}, ", Became(t.err()))?;
    let rest = v.tail_after(t);
    println!(rt; "{}, {} looked at", Shown(&rest.vector), rest.looked)
}

pub fn yes_no(rt: &impl Print, label: &str, b: bool) -> io::Result<()> {
    println!(rt; "{label}: {}", if b { "yes" } else { "no" })
}

pub fn number_line(rt: &impl Print, label: &str, n: u64) -> io::Result<()> {
    println!(rt; "{label}: {n}")
}

pub fn bytes(rt: &impl Print, label: &str, o: Result<(), Refusal>, bytes: &[u8]) -> io::Result<()> {
    print!(rt; "{label}: {}, ", Became(o.err()))?;
    rt.write_all(bytes)?;
    println!(rt)
}

pub fn alignment(rt: &impl Print, label: &str, a: Result<bool, Refusal>) -> io::Result<()> {
    match a {
        Ok(true) => println!(rt; "{label}: aligned"),
        Ok(false) => println!(rt; "{label}: unaligned"),
        Err(refusal) => println!(rt; "{label}: {}", refusal.number()),
    }
}

// The vector of that segment alone, over data of 2,000,000 bytes.
pub fn one(start: usize, length: usize) -> IoVector {
    more(IoVector::new(), start, length)
}

// With one segment more, over data of 2,000,000 bytes; where it is refused, v as it was.
pub fn more(v: IoVector, start: usize, length: usize) -> IoVector {
    v.push(Segment { start, length }, 2000000).unwrap_or(v)
}
