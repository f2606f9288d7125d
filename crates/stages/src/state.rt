// The state of one job.
ghost use Rattle.std.specs.Prelude.{◌≡◌, ◌+◌, leb};
ghost use Rattle.arithmetic.specs.Offsets.{buffer_at, range_of};
ghost use Rattle.stages.specs.Stages.{size_of, is_free, has_ended, is_blocking, uses_bounce, second_at, lies_in, is_sound, zero_kind};
ghost use Rattle.stages.specs.Stages.{request};
ghost use Rattle.stages.specs.Stages.{request_of};

use arithmetic::offsets::{BufferOffset, Range, StoreOffset};

// What a job was begun as.
#[derive(Clone, Copy, PartialEq, Eq)]
pub enum Job {
    Read,
    Write,
    Zeroes,
    AllocatedZeroes,
    Discard,
}

// Which request is out, or waited for.
#[derive(Clone, Copy, PartialEq, Eq)]
pub enum Phase {
    Free, // no job
    Ended, // the final answer is there
    DirectRead, // a read into the segments
    BouncedRead, // a read of the padded range into the bounce buffer
    FirstRead, // the first read of a padded write: of all, or of the head
    SecondRead, // its second read: of the tail
    BouncedWrite, // a write of the padded range, or of zeroes, from the bounce buffer
    DirectWrite, // a write from the segments
    ZeroRequest, // a zero request
    DiscardRequest, // a discard request
}

// What follows the stage.
#[derive(Clone, Copy)]
pub enum Course {
    Last, // nothing
    Middle, // of a zero job: head, then tail; told 1: the whole in chunks
    Head, // of a zero job: the tail
    Chunks, // of write_full_zeroes: the next chunk
}

// Where a stage's bytes lie on the store and in the bounce buffer.
#[derive(Clone, Copy)]
pub struct Stage {
    pub asked: Range, // the asked range, before padding
    pub request: Range, // the range of its write, zero, discard or only read: padded, or as asked
    pub first: Range, // the range of a padded write's first read; empty where there is none
    pub second: Range, // the range of its second read; empty where there is none
    pub head: BufferOffset, // where the asked bytes start in the bounce buffer
    pub strong: bool, // whether its blocker is strong
}

#[derive(Clone, Copy)]
pub struct State {
    pub phase: Phase,
    // The final answer, once ended. It stands beside the phase and not in `Ended`: any words are a state, and those of one that has not
    // ended have an answer too (`state_from`, specs/View.antt of crate dock_words).
    pub answer: u8,
    pub job: Job,
    pub range: Range, // the job's asked range
    pub middle: Range, // of a zero job: the range of its zero request
    pub course: Course,
    pub stage: Stage,
}

// What the store must do.
#[derive(Clone, Copy)]
pub enum Kind {
    Read,
    Write,
    Zero,
    AllocatedZero,
    Discard,
}

#[derive(Clone, Copy)]
pub struct Request {
    pub kind: Kind,
    pub offset: StoreOffset,
    pub length: u64,
    pub segments: usize, // how many pieces of data or scratch it has
}

// How many bytes a range has.
pub fn size(r: Range) -> u64
    ensures { result ≡ size_of r }
{
    r.end.0.saturating_sub(r.start.0)
}

// A range without bytes.
pub fn nowhere() -> Range
    ensures { result ≡ range_of 0 0 }
{
    Range {
        start: StoreOffset(0),
        end: StoreOffset(0),
    }
}

pub fn is_free(p: Phase) -> bool
    ensures { result ≡ is_free p }
{
    p == Phase::Free
}

pub fn has_ended(p: Phase) -> bool
    ensures { result ≡ has_ended p }
{
    p == Phase::Ended
}

// Whether a job in this phase has a blocker: reads have none.
pub fn is_blocking(p: Phase) -> bool
    ensures { result ≡ is_blocking p }
{
    matches!(
        p,
        Phase::FirstRead
            | Phase::SecondRead
            | Phase::BouncedWrite
            | Phase::DirectWrite
            | Phase::ZeroRequest
            | Phase::DiscardRequest
    )
}

// Plain or allocating, for a zero request of this job.
fn zero_kind(j: Job) -> Kind
    ensures { result ≡ zero_kind j }
{
    match j {
        Job::AllocatedZeroes => Kind::AllocatedZero,
        Job::Read | Job::Write | Job::Zeroes | Job::Discard => Kind::Zero,
    }
}

fn request_for(kind: Kind, r: Range, segments: usize) -> Request
    ensures { result ≡ request kind r segments }
{
    Request {
        kind,
        offset: r.start,
        length: size(r),
        segments,
    }
}

// Whether a job in this phase has bytes in its bounce buffer.
pub fn uses_bounce(p: Phase) -> bool
    ensures { result ≡ uses_bounce p }
{
    matches!(
        p,
        Phase::BouncedRead | Phase::FirstRead | Phase::SecondRead | Phase::BouncedWrite
    )
}

// Whether a + b is at most n.
fn is_sum_within(a: u64, b: u64, n: u64) -> bool
    ensures { result ≡ leb (a + b) n }
{
    a <= n && b <= n - a
}

impl Stage {
    // Where the bytes of the second read start in the bounce buffer, which holds the store from the request's start on.
    pub fn second_at(self) -> BufferOffset
        ensures { result ≡ buffer_at (second_at self) }
    {
        let Ok(place) = self.second.start.in_buffer(self.request.start) else {
            return BufferOffset(0); // a stage without one
        };
        place
    }
}

// Whether a stage's bytes lie in a bounce buffer of n bytes.
#[tactic(auto, unfolding(crate::specs::Stages::lies_in))]
fn lies_in(g: Stage, n: u64) -> bool
    ensures { result ≡ lies_in n g }
{
    let asked = is_sum_within(g.head.0 as u64, size(g.asked), n);
    let first = size(g.first) <= n;
    let last = is_sum_within(g.second_at().0 as u64, size(g.second), n);
    asked & (size(g.request) <= n) & first & last
}

impl State {
    // The request that is out, or waited for, of a job whose vector has `count` segments.
    #[tactic(auto, unfolding(crate::specs::Stages::request_of))]
    pub fn request(self, count: usize) -> Request
        ensures { result ≡ request_of self count }
    {
        let g = self.stage;
        match self.phase {
            Phase::Free | Phase::Ended => request_for(Kind::Read, g.request, 0),
            Phase::DirectRead => request_for(Kind::Read, g.request, count),
            Phase::BouncedRead => request_for(Kind::Read, g.request, 1),
            Phase::FirstRead => request_for(Kind::Read, g.first, 1),
            Phase::SecondRead => request_for(Kind::Read, g.second, 1),
            Phase::BouncedWrite => request_for(Kind::Write, g.request, 1),
            Phase::DirectWrite => request_for(Kind::Write, g.request, count),
            Phase::ZeroRequest => request_for(zero_kind(self.job), g.request, 0),
            Phase::DiscardRequest => request_for(Kind::Discard, g.request, 0),
        }
    }

    // Whether the stage's bytes lie in a bounce buffer of `bounce` bytes, where the phase uses one.
    #[tactic(auto, unfolding(crate::specs::Stages::is_sound))]
    pub fn is_sound(self, bounce: u64) -> bool
        ensures { result ≡ is_sound bounce self }
    {
        !uses_bounce(self.phase) || lies_in(self.stage, bounce)
    }
}
