// What a told code leads to.
ghost use Rattle.std.specs.Prelude.{◌≡◌, ltb};
ghost use Rattle.arithmetic.specs.Rounding.{pick};
ghost use Rattle.stages.specs.Stages.{size_of, in_phase, ended_with, later_stage, zeroes_next, chunk_next, tail_next, head_next};
ghost use Rattle.stages.specs.Stages.{stage_done};
ghost use Rattle.stages.specs.Stages.{done_next, unsupported_next};

use crate::state::{Course, Phase, State, size};
use arithmetic::offsets::{Range, StoreOffset};
use arithmetic::refusals::Refusal;
use arithmetic::settings::Settings;
use arithmetic::zeroes::next_chunk;

// The job goes on in its stage, ends, or enters its next stage.
#[derive(Clone, Copy)]
pub enum Step {
    Stays(State),
    Ends(State),
    Enters(State),
}

impl State {
    // The job in another phase.
    fn set_phase(mut self, phase: Phase) -> State
        ensures { result ≡ in_phase phase self }
    {
        self.phase = phase;
        self
    }

    // The job ended, with its final answer.
    fn end_with(mut self, answer: u8) -> State
        ensures { result ≡ ended_with answer self }
    {
        self.answer = answer;
        self.phase = Phase::Ended;
        self
    }

    // The job ends: a failure ends it with its number.
    pub fn ends(self, answer: u8) -> Step
        ensures { result ≡ Step.Ends (ended_with answer self) }
    {
        Step::Ends(self.end_with(answer))
    }

    // A later stage: a refusal, 207 among them, is the job's final answer.
    fn enter_later(self, plan: Result<Option<State>, Refusal>) -> Step
        ensures { result ≡ later_stage self plan }
    {
        match plan {
            Ok(None) => self.ends(0),
            Ok(Some(next)) => Step::Enters(next),
            Err(r) => self.ends(r.number()),
        }
    }

    fn write_zeroes(self, settings: Settings, course: Course, part: Range) -> Step
        ensures { result ≡ zeroes_next settings self course part }
    {
        self.enter_later(self.plan_zero_write(settings, course, part))
    }

    // The next chunk of write_full_zeroes, from `start` to the end of the job's range.
    #[tactic(auto, unfolding(crate::specs::Stages::chunk_next))]
    fn write_chunk(self, settings: Settings, start: StoreOffset) -> Step
        ensures { result ≡ chunk_next settings self start }
    {
        let rest = Range {
            start,
            end: self.range.end,
        };
        match next_chunk(rest, settings) {
            Ok(None) => self.ends(0),
            Ok(Some(part)) => self.write_zeroes(settings, Course::Chunks, part),
            Err(r) => self.ends(r.number()),
        }
    }

    // The write of zeroes behind the middle, where not empty.
    #[tactic(auto, unfolding(crate::specs::Stages::tail_next))]
    fn write_tail(self, settings: Settings) -> Step
        ensures { result ≡ tail_next settings self }
    {
        let part = Range {
            start: self.middle.end,
            end: self.range.end,
        };
        if 0 < size(part) {
            return self.write_zeroes(settings, Course::Last, part);
        }
        self.ends(0)
    }

    // The write of zeroes before the middle, where not empty, otherwise the one behind it.
    #[tactic(auto, unfolding(crate::specs::Stages::head_next))]
    fn write_head(self, settings: Settings) -> Step
        ensures { result ≡ head_next settings self }
    {
        let part = Range {
            start: self.range.start,
            end: self.middle.start,
        };
        if 0 < size(part) {
            return self.write_zeroes(settings, Course::Head, part);
        }
        self.write_tail(settings)
    }

    // The stage is done: what its course says comes next.
    fn end_stage(self, settings: Settings) -> Step
        ensures { result ≡ stage_done self.course settings self }
    {
        match self.course {
            Course::Last => self.ends(0),
            Course::Middle => self.write_head(settings),
            Course::Head => self.write_tail(settings),
            Course::Chunks => self.write_chunk(settings, self.stage.asked.end),
        }
    }

    // Past the first read of a padded write.
    fn pass_first_read(self) -> Phase
        ensures { result ≡ pick (ltb 0 (size_of self.stage.second)) Phase.SecondRead Phase.BouncedWrite }
    {
        if 0 < size(self.stage.second) {
            return Phase::SecondRead;
        }
        Phase::BouncedWrite
    }

    // The request is done.
    pub fn done(self, settings: Settings) -> Step
        ensures { result ≡ done_next self.phase settings self }
    {
        match self.phase {
            Phase::FirstRead => Step::Stays(self.set_phase(self.pass_first_read())),
            Phase::SecondRead => Step::Stays(self.set_phase(Phase::BouncedWrite)),
            Phase::BouncedWrite | Phase::ZeroRequest => self.end_stage(settings),
            Phase::Free
            | Phase::Ended
            | Phase::DirectRead
            | Phase::BouncedRead
            | Phase::DirectWrite
            | Phase::DiscardRequest => self.ends(0),
        }
    }

    // The store does not support the request.
    pub fn unsupported(self, settings: Settings) -> Step
        ensures { result ≡ unsupported_next self.phase settings self }
    {
        let whole = self.range;
        match self.phase {
            Phase::ZeroRequest => self.write_chunk(settings, whole.start),
            Phase::DiscardRequest => self.ends(0), // answer 1 counts as done
            Phase::Free
            | Phase::Ended
            | Phase::DirectRead
            | Phase::BouncedRead
            | Phase::FirstRead
            | Phase::SecondRead
            | Phase::BouncedWrite
            | Phase::DirectWrite => self.ends(1),
        }
    }
}
