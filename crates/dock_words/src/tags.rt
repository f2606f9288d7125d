// Words that stand for variants and ranges.
ghost use Rattle.std.specs.Prelude.{◌≡◌, ℕ};
ghost use Rattle.arithmetic.specs.Offsets.{range_of};
ghost use Rattle.dock_words.specs.View.{phase_of, phase_tag, job_of, job_tag, course_of, course_tag, kind_of, kind_tag};
ghost use Rattle.dock_words.specs.TagLaws.{phase_back, job_back, course_back, kind_back};

use arithmetic::offsets::{Range, StoreOffset};
use blockers::Kind;
use stages::state::{Course, Job, Phase};

// A variant as a word, its tag. Any word stands for one: a tag that is none for the first variant.
pub(crate) trait Tagged: Copy {
    ghost of_tag: { ℕ → Self };

    ghost tag_of: { Self → ℕ };

    fn from_tag(tag: u64) -> Self
        ensures { result ≡ of_tag tag };

    fn tag(self) -> u64
        ensures { result ≡ tag_of self };

    // What is put is what is got.
    ghost back: { (x : Self) → of_tag (tag_of x) ≡ x };
}

impl Tagged for Phase {
    ghost of_tag = { phase_of };

    ghost tag_of = { phase_tag };

    ghost back = { phase_back };

    #[tactic(auto, unfolding(crate::specs::View::phase_of))]
    fn from_tag(tag: u64) -> Phase {
        match tag {
            1 => Phase::Ended,
            2 => Phase::DirectRead,
            3 => Phase::BouncedRead,
            4 => Phase::FirstRead,
            5 => Phase::SecondRead,
            6 => Phase::BouncedWrite,
            7 => Phase::DirectWrite,
            8 => Phase::ZeroRequest,
            9 => Phase::DiscardRequest,
            _ => Phase::Free,
        }
    }

    fn tag(self) -> u64 {
        match self {
            Phase::Free => 0,
            Phase::Ended => 1,
            Phase::DirectRead => 2,
            Phase::BouncedRead => 3,
            Phase::FirstRead => 4,
            Phase::SecondRead => 5,
            Phase::BouncedWrite => 6,
            Phase::DirectWrite => 7,
            Phase::ZeroRequest => 8,
            Phase::DiscardRequest => 9,
        }
    }
}

impl Tagged for Job {
    ghost of_tag = { job_of };

    ghost tag_of = { job_tag };

    ghost back = { job_back };

    #[tactic(auto, unfolding(crate::specs::View::job_of))]
    fn from_tag(tag: u64) -> Job {
        match tag {
            1 => Job::Write,
            2 => Job::Zeroes,
            3 => Job::AllocatedZeroes,
            4 => Job::Discard,
            _ => Job::Read,
        }
    }

    fn tag(self) -> u64 {
        match self {
            Job::Read => 0,
            Job::Write => 1,
            Job::Zeroes => 2,
            Job::AllocatedZeroes => 3,
            Job::Discard => 4,
        }
    }
}

impl Tagged for Course {
    ghost of_tag = { course_of };

    ghost tag_of = { course_tag };

    ghost back = { course_back };

    #[tactic(auto, unfolding(crate::specs::View::course_of))]
    fn from_tag(tag: u64) -> Course {
        match tag {
            1 => Course::Middle,
            2 => Course::Head,
            3 => Course::Chunks,
            _ => Course::Last,
        }
    }

    fn tag(self) -> u64 {
        match self {
            Course::Last => 0,
            Course::Middle => 1,
            Course::Head => 2,
            Course::Chunks => 3,
        }
    }
}

impl Tagged for Kind {
    ghost of_tag = { kind_of };

    ghost tag_of = { kind_tag };

    ghost back = { kind_back };

    #[tactic(auto, unfolding(crate::specs::View::kind_of))]
    fn from_tag(tag: u64) -> Kind {
        match tag {
            1 => Kind::Weak,
            2 => Kind::Strong,
            _ => Kind::Absent,
        }
    }

    fn tag(self) -> u64 {
        match self {
            Kind::Absent => 0,
            Kind::Weak => 1,
            Kind::Strong => 2,
        }
    }
}

// The range in two words.
pub(crate) fn get_range(start: u64, end: u64) -> Range
    ensures { result ≡ range_of start end }
{
    Range {
        start: StoreOffset(start),
        end: StoreOffset(end),
    }
}
