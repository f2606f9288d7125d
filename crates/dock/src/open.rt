// Opening, with alignments or by drive profile.
ghost use Rattle.std.specs.Prelude.{◌≡◌};
ghost use Rattle.dock.specs.Dock.{vacant, fresh, open_of, open_by};

use crate::dock::Dock;
use arithmetic::offsets::BufferOffset;
use arithmetic::refusals::Refusal;
use arithmetic::settings::{Alignments, Buffers, Settings, check_opening};
use blockers::Blockers;
use stages::state::{Course, Job, Phase, Stage, State, nowhere};
use vectors::vector::IoVector;

// A dock, and whether it was opened: one that was not refuses every begin likewise. Not a Result: the dock of a refused opening is
// named by the theorems (`open_of`, `open_by`).
#[derive(Clone, Copy)]
pub struct Opened {
    pub dock: Dock,
    pub outcome: Result<(), Refusal>,
}

// The state of a free slot.
#[tactic(auto, unfolding(crate::specs::Dock::vacant))]
pub fn make_vacant() -> State
    ensures { result ≡ vacant }
{
    State {
        phase: Phase::Free,
        answer: 0,
        job: Job::Read,
        range: nowhere(),
        middle: nowhere(),
        course: Course::Last,
        stage: Stage {
            asked: nowhere(),
            request: nowhere(),
            first: nowhere(),
            second: nowhere(),
            head: BufferOffset(0),
            strong: false,
        },
    }
}

#[tactic(auto, unfolding(crate::specs::Dock::fresh))]
fn make_fresh(settings: Settings, buffers: Buffers) -> Dock
    ensures { result ≡ fresh settings buffers }
{
    Dock {
        settings,
        buffers,
        blockers: Blockers::new(),
        states: [make_vacant(); 8],
        vectors: [IoVector::new(); 8],
    }
}

// Open with alignments: refused with 201, then 205.
#[tactic(auto, unfolding(crate::specs::Dock::open_of))]
pub fn open(settings: Settings, buffers: Buffers) -> Opened
    ensures { result ≡ open_of settings buffers }
{
    Opened {
        dock: make_fresh(settings, buffers),
        outcome: check_opening(settings, buffers),
    }
}

// Open by drive profile (document 01: a drive row), a built-in one or one of a loaded table: refused with 201, then 205.
pub fn open_by(profile: Result<Alignments, Refusal>, bounce: u64, buffers: Buffers) -> Opened
    ensures { result ≡ open_by profile bounce buffers }
{
    match profile {
        Ok(align) => open(Settings { align, bounce }, buffers),
        Err(r) => {
            let align = Alignments {
                mem: 0,
                req: 0,
                zero: 0,
                discard: 0,
            };
            let dock = make_fresh(Settings { align, bounce }, buffers);
            Opened {
                dock,
                outcome: Err(r),
            }
        }
    }
}
