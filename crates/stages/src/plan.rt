// The first stage of each job, and a write of zeroes as a stage of a zero job.
ghost use Rattle.std.specs.Prelude.{◌≡◌, ◌+◌, ◌-◌, ◌<◌, ◌≤◌, ◌^◌};
ghost use Rattle.arithmetic.specs.Offsets.{range_of};
ghost use Rattle.stages.specs.Stages.{Holds, direct_stage, first_of, second_of, padded_stage, first_phase, state_of, asked, bounced_phase};
ghost use Rattle.stages.specs.Stages.{vector_plan, read_plan, write_plan, zeroes_plan, zero_job, zero_plan, discard_plan};
ghost use Rattle.arithmetic.specs.Padding.{reads_of};

use crate::state::{Course, Job, Phase, Stage, State, nowhere, size};
use arithmetic::offsets::{BufferOffset, Range, StoreOffset, is_multiple};
use arithmetic::padding::{Reads, Span, Transfer, plan_transfer};
use arithmetic::refusals::Refusal;
use arithmetic::settings::Settings;
use arithmetic::zeroes::{ZeroCut, discard_cut, zero_cut};

#[tactic(auto, unfolding(crate::specs::Stages::direct_stage))]
fn direct_stage(r: Range) -> Stage
    ensures { result ≡ direct_stage r }
{
    Stage {
        asked: r,
        request: r,
        first: nowhere(),
        second: nowhere(),
        head: BufferOffset(0),
        strong: false,
    }
}

// The bytes of a padded range that its bounce buffer holds before `end`.
fn first_bytes(s: Span, end: BufferOffset) -> Range
    requires { s.start.0 + end.0 < 2 ^ 64 }
    ensures { result ≡ range_of s.start.0 (s.start.0 + end.0) }
{
    let Ok(end) = end.on_store(s.start) else {
        return nowhere();
    };
    Range {
        start: s.start,
        end,
    }
}

// The last `length` bytes of a padded range.
fn last_bytes(s: Span, length: u64) -> Range
    requires { length ≤ s.end.0 }
    ensures { result ≡ range_of (s.end.0 - length) s.end.0 }
{
    Range {
        start: StoreOffset(s.end.0 - length),
        end: s.end,
    }
}

// What a padded write reads first: all, or its head. That a span `Holds` is asked here and below, and is no invariant of `Span`, whose
// definition (`span_of`) makes spans of any numbers.
fn first_read(s: Span) -> Range
    requires { Holds s }
    ensures { result ≡ first_of s (reads_of s) }
{
    match s.reads() {
        Reads::Nothing | Reads::Tail(_) => nowhere(),
        Reads::Whole => Range {
            start: s.start,
            end: s.end,
        },
        Reads::Head(_) | Reads::HeadThenTail(_, _) => {
            first_bytes(s, BufferOffset(s.prefix as usize))
        }
    }
}

// What it reads second: its tail.
fn second_read(s: Span) -> Range
    requires { Holds s }
    ensures { result ≡ second_of s (reads_of s) }
{
    match s.reads() {
        Reads::Nothing | Reads::Whole | Reads::Head(_) => nowhere(),
        Reads::Tail(_) | Reads::HeadThenTail(_, _) => last_bytes(s, s.suffix),
    }
}

#[tactic(auto, unfolding(crate::specs::Stages::padded_stage))]
fn padded_stage(s: Span, asked: Range) -> Stage
    requires { Holds s }
    ensures { result ≡ padded_stage s asked }
{
    Stage {
        asked,
        request: Range {
            start: s.start,
            end: s.end,
        },
        first: first_read(s),
        second: second_read(s),
        head: s.head,
        strong: true,
    }
}

// The first phase of a write from the bounce buffer: its reads come first.
#[tactic(auto, unfolding(crate::specs::Stages::first_phase))]
fn first_phase(g: Stage) -> Phase
    ensures { result ≡ first_phase g }
{
    if 0 < size(g.first) {
        return Phase::FirstRead;
    }
    if 0 < size(g.second) {
        return Phase::SecondRead;
    }
    Phase::BouncedWrite
}

// A job in its first stage; `middle` and `course` are those of a zero job.
fn start(job: Job, range: Range, middle: Range, course: Course, stage: Stage, phase: Phase) -> State
    ensures { result ≡ state_of job range middle course stage phase }
{
    State {
        phase,
        answer: 0,
        job,
        range,
        middle,
        course,
        stage,
    }
}

// The n bytes at `offset`.
fn asked_range(offset: StoreOffset, n: u64) -> Range
    requires { offset.0 + n < 2 ^ 64 }
    ensures { result ≡ asked offset n }
{
    Range {
        start: offset,
        end: StoreOffset(offset.0 + n),
    }
}

// The first phase of a padded request: a read is one request, a write has its reads first.
fn bounced_phase(job: Job, g: Stage) -> Phase
    ensures { result ≡ bounced_phase job g }
{
    if job == Job::Read {
        return Phase::BouncedRead;
    }
    first_phase(g)
}

// A job over a vector of n bytes at `offset`, aligned or not: direct in the phase `direct`, or padded. Here and in `plan_zero_write` the
// padding's answer is taken apart by `let .. else`, as document 01 has it.
fn plan_vector(
    settings: Settings,
    job: Job,
    direct: Phase,
    offset: StoreOffset,
    n: u64,
    aligned: bool,
) -> Result<Option<State>, Refusal>
    ensures { result ≡ vector_plan settings job direct offset n aligned }
{
    if n == 0 {
        return Ok(None);
    }
    let transfer = plan_transfer(offset, n, aligned, settings.align)?;
    let range = asked_range(offset, n);
    let Transfer::Bounced(span) = transfer else {
        let stage = direct_stage(range);
        return Ok(Some(start(job, range, nowhere(), Course::Last, stage, direct)));
    };
    if settings.bounce < span.length {
        return Err(Refusal::TooLong);
    }
    let stage = padded_stage(span, range);
    let phase = bounced_phase(job, stage);
    Ok(Some(start(job, range, nowhere(), Course::Last, stage, phase)))
}

// A read of n bytes at `offset` into a vector that is or is not aligned.
#[tactic(auto, unfolding(crate::specs::Stages::read_plan))]
pub fn plan_read(
    settings: Settings,
    offset: StoreOffset,
    n: u64,
    aligned: bool,
) -> Result<Option<State>, Refusal>
    ensures { result ≡ read_plan settings offset n aligned }
{
    plan_vector(settings, Job::Read, Phase::DirectRead, offset, n, aligned)
}

// A write of n bytes at `offset` from a vector that is or is not aligned.
#[tactic(auto, unfolding(crate::specs::Stages::write_plan))]
pub fn plan_write(
    settings: Settings,
    offset: StoreOffset,
    n: u64,
    aligned: bool,
) -> Result<Option<State>, Refusal>
    ensures { result ≡ write_plan settings offset n aligned }
{
    plan_vector(settings, Job::Write, Phase::DirectWrite, offset, n, aligned)
}

impl State {
    // The job at its next stage.
    fn set_stage(mut self, course: Course, stage: Stage, phase: Phase) -> State
        ensures { result ≡ state_of self.job self.range self.middle course stage phase }
    {
        self.phase = phase;
        self.answer = 0;
        self.course = course;
        self.stage = stage;
        self
    }

    // A write of zeroes over `part` as the next stage of a zero job. The bounce buffer starts at a multiple of M, so the write is
    // aligned where its length is a multiple of L.
    #[tactic(auto, unfolding(crate::specs::Stages::zeroes_plan))]
    pub fn plan_zero_write(
        self,
        settings: Settings,
        course: Course,
        part: Range,
    ) -> Result<Option<State>, Refusal>
        ensures { result ≡ zeroes_plan settings self.job self.range self.middle course part }
    {
        let align = settings.align;
        let n = size(part);
        let aligned = is_multiple(n, align.length_align());
        let transfer = plan_transfer(part.start, n, aligned, align)?;
        let Transfer::Bounced(s) = transfer else {
            if settings.bounce < n {
                return Err(Refusal::TooLong);
            }
            return Ok(Some(self.set_stage(course, direct_stage(part), Phase::BouncedWrite)));
        };
        if settings.bounce < s.length {
            return Err(Refusal::TooLong);
        }
        let stage = padded_stage(s, part);
        Ok(Some(self.set_stage(course, stage, first_phase(stage))))
    }
}

pub fn zero_job(allocate: bool) -> Job
    ensures { result ≡ zero_job allocate }
{
    if allocate {
        Job::AllocatedZeroes
    } else {
        Job::Zeroes
    }
}

// Zeroes over n bytes at `offset`, plain or allocating.
#[tactic(auto, unfolding(crate::specs::Stages::zero_plan))]
pub fn plan_zeroes(
    settings: Settings,
    allocate: bool,
    offset: StoreOffset,
    n: u64,
) -> Result<Option<State>, Refusal>
    ensures { result ≡ zero_plan settings allocate offset n }
{
    let job = zero_job(allocate);
    match zero_cut(offset, n, settings.align)? {
        ZeroCut::Nothing => Ok(None),
        ZeroCut::Whole(r) => {
            let stage = direct_stage(r);
            let x = start(job, r, nowhere(), Course::Last, stage, Phase::Free);
            x.plan_zero_write(settings, Course::Last, r)
        }
        ZeroCut::Split(c) => {
            let range = asked_range(offset, n);
            let stage = direct_stage(c.middle);
            Ok(Some(start(
                job,
                range,
                c.middle,
                Course::Middle,
                stage,
                Phase::ZeroRequest,
            )))
        }
    }
}

// A discard of n bytes at `offset`.
#[tactic(auto, unfolding(crate::specs::Stages::discard_plan))]
pub fn plan_discard(
    settings: Settings,
    offset: StoreOffset,
    n: u64,
) -> Result<Option<State>, Refusal>
    ensures { result ≡ discard_plan settings offset n }
{
    match discard_cut(offset, n, settings.align)? {
        None => Ok(None),
        Some(r) => {
            let range = asked_range(offset, n);
            let stage = direct_stage(r);
            Ok(Some(start(
                Job::Discard,
                range,
                nowhere(),
                Course::Last,
                stage,
                Phase::DiscardRequest,
            )))
        }
    }
}
