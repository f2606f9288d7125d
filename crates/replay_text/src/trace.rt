// What is printed.
use crate::marks::{Mark, Marks};
use crate::script::{Flaw, Verb};
use arithmetic::refusals::Refusal;
use dock::dock::{Dock, SLOTS};
use dock::next::{Due, Piece};
use stages::state::{Kind, Request};
use std::{fmt, io};
use vectors::vector::Segment;

// A dock, and the buffers that are lent to it.
#[derive(Clone, Copy)]
pub struct View<'a> {
    pub dock: &'a Dock,
    pub data: &'a [u8],
    pub scratch: &'a [u8],
}

impl View<'_> {
    pub fn next(self, slot: usize) -> Result<Due, Refusal> {
        self.dock.next(slot, self.data, self.scratch)
    }

    // Where piece i of the request in `slot` lies.
    fn piece(self, slot: usize, i: usize) -> Place {
        Place(
            self.dock
                .piece_place(slot, i, self.data.len(), self.scratch.len()),
        )
    }
}

// A refusal, by its number: refused 208
#[derive(Clone, Copy)]
struct Reason(Refusal);

impl fmt::Display for Reason {
    fn fmt<W: fmt::Write>(&self, f: &mut fmt::Formatter<W>) -> fmt::Result {
        write!(f, "refused {}", self.0.number())
    }
}

// Where a run of bytes starts, and how many they are: 0+512
#[derive(Clone, Copy)]
struct Extent {
    start: u64,
    length: u64,
}

impl From<Segment> for Extent {
    fn from(s: Segment) -> Extent {
        Extent {
            start: s.start as u64,
            length: s.length as u64,
        }
    }
}

impl fmt::Display for Extent {
    fn fmt<W: fmt::Write>(&self, f: &mut fmt::Formatter<W>) -> fmt::Result {
        write!(f, "{}+{}", self.start, self.length)
    }
}

// Where a piece lies, or why there is none: scratch 0+512
#[derive(Clone, Copy)]
struct Place(Result<Piece, Refusal>);

impl fmt::Display for Place {
    fn fmt<W: fmt::Write>(&self, f: &mut fmt::Formatter<W>) -> fmt::Result {
        match self.0 {
            Ok(Piece::InData(s)) => write!(f, "data {}", Extent::from(s)),
            Ok(Piece::InScratch(s)) => write!(f, "scratch {}", Extent::from(s)),
            Err(r) => write!(f, "{}", Reason(r)),
        }
    }
}

pub fn refused(rt: &impl Print, r: Refusal) -> io::Result<()> {
    print!(rt; " {}", Reason(r))
}

pub fn outcome(rt: &impl Print, o: Result<(), Refusal>) -> io::Result<()> {
    match o {
        Ok(()) => print!(rt; " done"),
        Err(r) => refused(rt, r),
    }
}

pub fn begun(rt: &impl Print, b: Result<Option<usize>, Refusal>) -> io::Result<()> {
    match b {
        Ok(None) => print!(rt; " done"),
        Ok(Some(slot)) => print!(rt; " slot {slot}"),
        Err(r) => refused(rt, r),
    }
}

pub fn collected(rt: &impl Print, c: Result<u8, Refusal>) -> io::Result<()> {
    match c {
        Ok(code) => print!(rt; " code {code}"),
        Err(r) => refused(rt, r),
    }
}

// What a request is, where on the store, and which way the bytes of its pieces go: read 0+512 into
#[derive(Clone, Copy)]
struct Head(Request);

fn word(kind: Kind) -> &'static str {
    match kind {
        Kind::Read => "read",
        Kind::Write => "write",
        Kind::Zero => "zero",
        Kind::AllocatedZero => "alloc",
        Kind::Discard => "discard",
    }
}

// Zero and discard requests have no pieces.
fn direction(kind: Kind) -> &'static str {
    match kind {
        Kind::Read => " into",
        Kind::Write => " from",
        Kind::Zero | Kind::AllocatedZero | Kind::Discard => "",
    }
}

impl fmt::Display for Head {
    fn fmt<W: fmt::Write>(&self, f: &mut fmt::Formatter<W>) -> fmt::Result {
        let request = self.0;
        let start = request.offset.0;
        let kind = request.kind;
        write!(
            f,
            "{} {start}+{}{}",
            word(kind),
            request.length,
            direction(kind)
        )
    }
}

// Where the n pieces of the request in `slot` lie, in order.
fn pieces(rt: &impl Print, view: View, slot: usize, n: usize) -> io::Result<()> {
    for i in 0..n {
        print!(rt; " {}", view.piece(slot, i))?;
    }
    Ok(())
}

// read 0+512 into scratch 0+512
fn request(rt: &impl Print, view: View, slot: usize, q: Request) -> io::Result<()> {
    print!(rt; " {}", Head(q))?;
    pieces(rt, view, slot, q.segments)
}

// What next answers for `slot`.
pub fn due(rt: &impl Print, view: View, slot: usize, d: Result<Due, Refusal>) -> io::Result<()> {
    match d {
        Ok(Due::Waiting) => print!(rt; " waiting"),
        Ok(Due::Make(q)) => request(rt, view, slot, q),
        Ok(Due::Answer(code)) => print!(rt; " answer {code}"),
        Err(r) => refused(rt, r),
    }
}

// Whether a request is newly due, or was out before. From here on it is shown.
fn due_or_out(d: Result<Due, Refusal>, slot: usize, marks: &mut Marks) -> &'static str {
    let Ok(Due::Make(_)) = d else {
        return "";
    };
    let is_new = marks.at(slot) == Mark::New;
    marks.show(slot);
    if is_new { " due" } else { " out" }
}

// The line of the job in `slot`: whether its request is new, and what it needs now.
fn job(
    rt: &impl Print,
    view: View,
    slot: usize,
    is_new: &str,
    d: Result<Due, Refusal>,
) -> io::Result<()> {
    print!(rt; "  slot {slot}:{is_new}")?;
    due(rt, view, slot, d)?;
    println!(rt)
}

// What the job in `slot` needs now; nothing for a free slot.
fn slot(rt: &impl Print, view: View, slot: usize, marks: &mut Marks) -> io::Result<()> {
    let d = view.next(slot);
    if d.is_err() {
        return Ok(());
    }
    job(rt, view, slot, due_or_out(d, slot, marks), d)
}

fn slots(rt: &impl Print, view: View, marks: &mut Marks) -> io::Result<()> {
    for i in 0..SLOTS {
        slot(rt, view, i, marks)?;
    }
    Ok(())
}

// The sum of the bytes, modulo 65536.
fn checksum(bytes: &[u8]) -> u16 {
    bytes
        .iter()
        .fold(0u16, |sum, b| sum.wrapping_add(u16::from(*b)))
}

fn checksums(rt: &impl Print, store: &[u8], data: &[u8]) -> io::Result<()> {
    println!(rt; "  store {} data {}", checksum(store), checksum(data))
}

// After an event's answer: the line's end, every slot that has a job, and the checksums.
pub fn state(rt: &impl Print, view: View, marks: &mut Marks, store: &[u8]) -> io::Result<()> {
    println!(rt)?;
    slots(rt, view, marks)?;
    checksums(rt, store, view.data)
}

// n bytes of the store from `at` on, as hex; those past its end are left out.
pub fn bytes(rt: &impl Print, store: &[u8], at: u64, n: u64) -> io::Result<()> {
    let end = (at.saturating_add(n) as usize).min(store.len());
    for b in store.get(at as usize..end).unwrap_or_default() {
        print!(rt; " {b:02x}")?;
    }
    Ok(())
}

impl Verb {
    // The numbers that the event takes, after its word.
    fn usage(self) -> &'static str {
        match self {
            Verb::Open => "the event takes ROW BOUNCE",
            Verb::Store | Verb::Data => "the event takes OFFSET LENGTH BYTE",
            Verb::Read | Verb::Write => {
                "the event takes OFFSET, and START LENGTH for each of at most 17 segments"
            }
            Verb::Next | Verb::Collect => "the event takes SLOT",
            Verb::Carry => "the event takes SLOT CODE, and CHOICE or not",
            Verb::Tell => "the event takes SLOT CODE",
            Verb::Zero | Verb::Alloc | Verb::Discard | Verb::Show => {
                "the event takes OFFSET LENGTH"
            }
        }
    }
}

// What stands before the place where a number was to be, after so many: number 2
#[derive(Clone, Copy)]
struct Before(usize);

impl fmt::Display for Before {
    fn fmt<W: fmt::Write>(&self, f: &mut fmt::Formatter<W>) -> fmt::Result {
        match self.0 {
            0 => f.write_str("the word"),
            n => write!(f, "number {n}"),
        }
    }
}

impl fmt::Display for Flaw {
    fn fmt<W: fmt::Write>(&self, f: &mut fmt::Formatter<W>) -> fmt::Result {
        f.write_str(match *self {
            Flaw::Number(good) => {
                return write!(
                    f,
                    "after {} comes neither the line's end nor one blank and a decimal number below 2^64",
                    Before(good),
                );
            }
            Flaw::Word => "no event has this name",
            Flaw::Count(verb) => verb.usage(),
            Flaw::Byte => "BYTE is at most 255",
            Flaw::Code => "CODE is at most 255",
            Flaw::Long => "LENGTH is at most 64 to show",
        })
    }
}

// A line of the script, and what ends it: bytes as they are, since `print` makes a formatter for each piece, and a script may have
// 65535 lines.
pub fn copy(rt: &impl Print, line: &[u8], end: &str) -> io::Result<()> {
    rt.write_all(line)?;
    rt.write_all(end.as_bytes())
}

// The last line of a run that came to its end.
pub fn ended(rt: &impl Print) -> io::Result<()> {
    println!(rt; "ok")
}

// The last line of a run that stopped at line `number`, which has a flaw.
pub fn malformed(rt: &impl Print, number: u64, line: &[u8], flaw: Flaw) -> io::Result<()> {
    print!(rt; "error: line {number}: {flaw}: ")?;
    copy(rt, line, "\n")
}

// The last line of a run whose script is too long to be read.
pub fn too_long(rt: &impl Print) -> io::Result<()> {
    println!(rt; "error: the script has more than 65535 bytes")
}
