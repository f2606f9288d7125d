// Replays a script of events on standard input: the dock runs over a stand-in store in memory, and a trace is written.
// A line is an event, or a comment where it is empty or starts with #. Words are apart by single blanks, numbers decimal.
//   open ROW BOUNCE            by drive profile; the data has 4096 bytes, the scratch 131072
//   store OFFSET LENGTH BYTE   the store's bytes of that range become BYTE
//   data OFFSET LENGTH BYTE    likewise the data's; those of a job in flight are to stay as they are, which nothing checks
//   read OFFSET, write OFFSET  begin, each with up to 17 segments of the data after it, as START LENGTH
//   zero OFFSET LENGTH, alloc OFFSET LENGTH, discard OFFSET LENGTH   begin
//   next SLOT                  what the job in SLOT needs
//   carry SLOT CODE            the store carries out the request that is out in SLOT, once, with that code, any up to 255
//   carry SLOT CODE CHOICE     likewise, and CHOICE, a number below 2^64, decides what the code leaves open
//   tell SLOT CODE             an answer to a request that is out is made only with the code of its carry
//   collect SLOT
//   show OFFSET LENGTH         at most 64 bytes of the store, as hex
// The store has 8192 bytes: past its end reads give zeroes, and writes are dropped. With code 0 a read, a write and a zero
// request are done whole. What is left open is decided for each byte by its offset o on the store:
//   write or zero request with another code: new where bit o mod 64 of CHOICE is set, else old; without CHOICE all old
//   discard with any code: byte o mod 8 of CHOICE, the lowest first; without CHOICE as it was
//   read with another code: its piece gets byte o mod 8 of CHOICE; without CHOICE 0
// The trace has each event with its answer. Then comes each slot that has a job: `due` and a request that is newly due, `out`
// and one that was out before, `waiting`, or `answer` and the final answer. A request is its kind, offset+length on the store
// and where its pieces lie, as start+length of the data or the scratch. Last come the sums of the store's and the data's
// bytes modulo 65536.
// The exit status is 0 whatever the script has, so the last line tells: `ok` where the script ran to its end; `error: line N: ..`
// where line N is neither event nor comment, and the run stops there; `error: ..` for a script of more than 65535 bytes, which
// is not run. Where a read or a write fails the program ends there, with that error on standard error and status 1.
#![tactic(auto)]

ghost use Rattle.std.specs.Prelude.{◌≤◌, length, IfOk};

use arithmetic::offsets::StoreOffset;
use arithmetic::refusals::Refusal;
use arithmetic::settings::{Buffers, Lent, drive_profile};
use dock::begin::Asked;
use dock::dock::Dock;
use dock::next::Due;
use dock::open::Opened;
use replay_store::{Act, NoRequest};
use replay_text::marks::{Mark, Marks};
use replay_text::script::{Event, Verb};
use replay_text::trace::View;
use replay_text::{script, trace};
use std::io;
use std::io::Read;
use vectors::vector::IoVector;

// What a script runs on: a dock, what became of its requests, the stand-in store, and the buffers that are lent to the dock.
#[derive(Drop)]
struct Bench {
    dock: Dock,
    marks: Marks,
    store: [u8; 8192],
    data: [u8; DATA],
    scratch: [u8; SCRATCH],
}

const DATA: usize = 4096;

// Eight bounce buffers of at most 16384 bytes: as many as each drive profile needs.
const SCRATCH: usize = 131072;

// Opens by drive profile. The data lies at address 0, the scratch at 65536: multiples of every memory alignment.
fn open(row: u64, bounce: u64) -> Opened {
    let data = Lent {
        address: 0,
        length: DATA as u64,
    };
    let scratch = Lent {
        address: 65536,
        length: SCRATCH as u64,
    };
    let buffers = Buffers { data, scratch };
    dock::open::open_by(drive_profile(row as usize), bounce, buffers)
}

// The vector of the first so many segments of an event, up to the first that is refused.
fn vector_of(e: Event, segments: usize, data_len: usize) -> Result<IoVector, Refusal> {
    (0..segments).try_fold(IoVector::new(), |v, k| v.push(e.segment(k), data_len))
}

// How many segments an event has: a read or a write, two numbers for each after the offset.
fn segments(e: Event) -> usize {
    match e.verb {
        Verb::Read | Verb::Write => e.count / 2,
        _ => 0,
    }
}

// What an event asks the dock for. Where it is none that begins a job, it is not looked at.
fn ask_for(e: Event, vector: IoVector) -> Asked {
    let offset = StoreOffset(e.number(0));
    let n = e.number(1);
    match e.verb {
        Verb::Read => Asked::read(offset, vector),
        Verb::Write => Asked::write(offset, vector),
        Verb::Alloc => Asked::zeroes(true, offset, n),
        Verb::Discard => Asked::discard(offset, n),
        _ => Asked::zeroes(false, offset, n),
    }
}

// What a carry asks of the store.
fn act_of(e: Event) -> Act {
    Act {
        code: e.byte(1),
        choice: e.get(2),
    }
}

fn fill(rt: &impl Print, bytes: &mut [u8], e: Event) -> io::Result<()> {
    replay_store::fill(bytes, e.number(0), e.number(1), e.byte(2));
    print!(rt; " done")
}

fn without_newline(line: &[u8]) -> &[u8] {
    line.strip_suffix(b"\n").unwrap_or(line)
}

impl Bench {
    // The dock, and what is lent to it.
    fn view(&self) -> View<'_> {
        View {
            dock: &self.dock,
            data: &self.data,
            scratch: &self.scratch,
        }
    }

    // Opens another dock, which has no request.
    fn reopen(&mut self, rt: &impl Print, e: Event) -> io::Result<()> {
        let o = open(e.number(0), e.number(1));
        self.dock = o.dock;
        self.marks = Marks::new();
        trace::outcome(rt, o.outcome)
    }

    // Begins a job; a vector that is refused begins none.
    fn begin(&mut self, e: Event) -> Result<Option<usize>, Refusal> {
        let vector = vector_of(e, segments(e), self.data.len())?;
        let b = self
            .dock
            .begin(ask_for(e, vector), &self.data, &mut self.scratch);
        self.dock = b.dock;
        b.answer
    }

    fn next(&self, rt: &impl Print, slot: usize) -> io::Result<()> {
        let view = self.view();
        trace::due(rt, view, slot, view.next(slot))
    }

    // Whether a code may be told: an answer to a request that is out is the code that the store carried it out with.
    fn may_tell(&self, slot: usize, code: u8) -> bool {
        if 199 < code {
            return true;
        }
        let is_out = matches!(self.view().next(slot), Ok(Due::Make(_)));
        !is_out || self.marks.at(slot) == Mark::Carried(code)
    }

    // An accepted tell ends the request: the next one of its slot is new.
    fn tell(&mut self, rt: &impl Print, slot: usize, code: u8) -> io::Result<()> {
        if !self.may_tell(slot, code) {
            return print!(rt; " not the code of its carry");
        }
        let t = self
            .dock
            .tell(slot, code, &mut self.data, &mut self.scratch);
        self.dock = t.dock;
        if t.outcome.is_ok() {
            self.marks.set(slot, Mark::New);
        }
        trace::outcome(rt, t.outcome)
    }

    fn collect(&mut self, rt: &impl Print, slot: usize) -> io::Result<()> {
        let c = self.dock.collect(slot, &self.data, &self.scratch);
        self.dock = c.dock;
        trace::collected(rt, c.answer)
    }

    // Carries out the request that is out in `slot`, once, and notes the code.
    fn carry(&mut self, rt: &impl Print, slot: usize, act: Act) -> io::Result<()> {
        if let Mark::Carried(_) = self.marks.at(slot) {
            return print!(rt; " carried out already");
        }
        let carried = replay_store::carry(
            &self.dock,
            slot,
            act,
            &mut self.store,
            &mut self.data,
            &mut self.scratch,
        );
        match carried {
            Ok(()) => {
                self.marks.set(slot, Mark::Carried(act.code));
                print!(rt; " done")
            }
            Err(NoRequest) => print!(rt; " no request is out"),
        }
    }

    // Performs an event, and prints its answer.
    fn answer(&mut self, rt: &impl Print, e: Event) -> io::Result<()> {
        let slot = e.number(0) as usize;
        match e.verb {
            Verb::Open => self.reopen(rt, e),
            Verb::Store => fill(rt, &mut self.store, e),
            Verb::Data => fill(rt, &mut self.data, e),
            Verb::Read | Verb::Write | Verb::Zero | Verb::Alloc | Verb::Discard => {
                trace::begun(rt, self.begin(e))
            }
            Verb::Next => self.next(rt, slot),
            Verb::Carry => self.carry(rt, slot, act_of(e)),
            Verb::Tell => self.tell(rt, slot, e.byte(1)),
            Verb::Collect => self.collect(rt, slot),
            Verb::Show => trace::bytes(rt, &self.store, e.number(0), e.number(1)),
        }
    }

    // Copies the line of an event, and performs it: its answer, and what the dock then needs.
    fn perform(&mut self, rt: &impl Print, line: &[u8], e: Event) -> io::Result<()> {
        trace::copy(rt, line, ":")?;
        self.answer(rt, e)?;
        // By its fields, and not by `view`, since the marks change beside them.
        let view = View {
            dock: &self.dock,
            data: &self.data,
            scratch: &self.scratch,
        };
        trace::state(rt, view, &mut self.marks, &self.store)
    }

    // Plays line `number`: what is wrong with it is printed, too. Whether nothing is.
    fn play(&mut self, rt: &impl Print, number: u64, line: &[u8]) -> io::Result<bool> {
        match script::parse(line) {
            Ok(None) => trace::copy(rt, line, "\n")?,
            Ok(Some(e)) => self.perform(rt, line, e)?,
            Err(flaw) => {
                trace::malformed(rt, number, line, flaw)?;
                return Ok(false);
            }
        }
        Ok(true)
    }

    // Plays the lines, in order, up to the first that is malformed. The last line printed says whether there was one.
    fn run(&mut self, rt: &impl Print, script: &[u8]) -> io::Result<()> {
        for (i, line) in script.split_inclusive(|b| *b == b'\n').enumerate() {
            if !self.play(rt, i as u64 + 1, without_newline(line))? {
                return Ok(());
            }
        }
        trace::ended(rt)
    }
}

// Reads until the buffer is full or the input ends, and returns how many bytes it put at the buffer's start. It is a loop over `read`
// since read_exact does not say how many there were, and read_to_end needs the heap.
fn read_full(reader: &mut impl Read, buffer: &mut [u8]) -> io::Result<usize>
    ensures { IfOk result (λ n. n ≤ length buffer.new) }
{
    let mut done = 0usize;
    while done < buffer.len() {
        let n = reader.read(&mut buffer[done..])?;
        if n == 0 {
            break;
        }
        done += n;
    }
    Ok(done)
}

// Reads a script on standard input, and replays it.
pub fn replay_input(rt: &(impl Print + Input)) -> io::Result<()> {
    let mut script = [0u8; 65536];
    let n = read_full(&mut rt.reader(), &mut script)?;
    if n == script.len() {
        return trace::too_long(rt);
    }
    let mut bench = Bench {
        dock: open(6, 0).dock, // there is no such row: every begin is refused
        marks: Marks::new(),
        store: [0u8; 8192],
        data: [0u8; DATA],
        scratch: [0u8; SCRATCH],
    };
    bench.run(rt, &script[..n])
}
