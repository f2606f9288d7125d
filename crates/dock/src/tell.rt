// Tell and collect.
ghost use Rattle.std.specs.Prelude.{◌≡◌, true, ◌<◌, length};
ghost use Rattle.dock.specs.Begin.{InShare};
ghost use Rattle.dock.specs.Tell.{tells, blockers_without, tell_of, collect_of, StepGives, StepInShare, stays_at, ends_at};
ghost use Rattle.dock.specs.Tell.{enters_at, stepped_at, answered_of, told_in};
ghost use Rattle.blockers.specs.Blockers.{changed};
ghost use Rattle.dock.specs.Dock.{lent_fits};

use crate::bytes::Place;
use crate::dock::{Dock, SLOTS, lent_fits};
use crate::next::{is_out, is_sound_in};
use crate::open::make_vacant;
use arithmetic::refusals::Refusal;
use arithmetic::settings::Settings;
use blockers::Blockers;
use stages::state::{State, has_ended, is_blocking};
use stages::told::Step;
use vectors::vector::IoVector;

// By value, the dock beside the answer: it comes back from a refused tell too (`tell_of`).
#[derive(Clone, Copy)]
pub struct Telling {
    pub outcome: Result<(), Refusal>,
    pub dock: Dock,
}

// What a tell leaves of one slot.
#[derive(Clone, Copy)]
pub struct Stepping {
    pub blockers: Blockers,
    pub state: State,
}

// The same of a collect (`collect_of`).
#[derive(Clone, Copy)]
pub struct Collects {
    pub answer: Result<u8, Refusal>,
    pub dock: Dock,
}

// The blockers once the stage of the job in `slot` has left.
#[tactic(auto, unfolding(crate::specs::Tell::blockers_without))]
fn leave_blocker(b: Blockers, slot: usize, x: State) -> Result<Blockers, Refusal>
    ensures { result ≡ changed (blockers_without b slot x) }
{
    if !is_blocking(x.phase) {
        return Ok(b);
    }
    b.leave(slot)
}

impl Place {
    // The job goes on in its stage: once its reads are done, its vector is copied in.
    fn stays(
        &self,
        b: Blockers,
        y: State,
        data: &[u8],
        scratch: &mut [u8],
    ) -> Result<Stepping, Refusal>
        requires { InShare self.now.share y (length scratch.old) }
        ensures { StepGives (stays_at b self.now.share y self.now.vector «data».now scratch.old) result «data».now scratch.new }
    {
        self.fill(y, data, scratch)?;
        Ok(Stepping {
            blockers: b,
            state: y,
        })
    }

    // The job x ends as y: its blocker leaves, and a padded read's bytes are copied out.
    #[tactic(auto, unfolding(crate::specs::Tell::ends_at))]
    fn ends(
        &self,
        b: Blockers,
        x: State,
        code: u8,
        y: State,
        data: &mut [u8],
        scratch: &[u8],
    ) -> Result<Stepping, Refusal>
        requires { InShare self.now.share x (length scratch.now) }
        ensures { StepGives (ends_at b self.now.slot self.now.share x code y self.now.vector «data».old scratch.now) result
            «data».new scratch.now }
    {
        let blockers = leave_blocker(b, self.slot, x)?;
        self.hand_out(x, code, data, scratch)?;
        Ok(Stepping { blockers, state: y })
    }

    // The job x enters its next stage as y: its blocker leaves first, then the next one enters and notes all that are entered then.
    #[tactic(auto, unfolding(crate::specs::Tell::enters_at))]
    fn enters(
        &self,
        b: Blockers,
        x: State,
        y: State,
        data: &[u8],
        scratch: &mut [u8],
    ) -> Result<Stepping, Refusal>
        requires { InShare self.now.share y (length scratch.old) }
        ensures { StepGives (enters_at b self.now.slot self.now.share x y self.now.vector «data».now scratch.old) result
            «data».now scratch.new }
    {
        let left = leave_blocker(b, self.slot, x)?;
        let blockers = self.enter(left, y, data, scratch)?;
        Ok(Stepping { blockers, state: y })
    }

    // The job x after its step. The step is a value that the definitions speak of (`told_of`), so it is matched, and is no closure.
    fn take_step(
        &self,
        b: Blockers,
        x: State,
        code: u8,
        step: Step,
        data: &mut [u8],
        scratch: &mut [u8],
    ) -> Result<Stepping, Refusal>
        requires { InShare self.now.share x (length scratch.old) × StepInShare self.now.share (length scratch.old) step }
        ensures { StepGives (stepped_at b self.now.slot self.now.share x code self.now.vector «data».old scratch.old step) result
            «data».new scratch.new }
    {
        match step {
            Step::Stays(y) => self.stays(b, y, data, scratch),
            Step::Ends(y) => self.ends(b, x, code, y, data, scratch),
            Step::Enters(y) => self.enters(b, x, y, data, scratch),
        }
    }
}

// What a code leads to: 0 done, 1 unsupported, 2 to 199 failed; 200 and up is no answer.
#[tactic(auto, unfolding(crate::specs::Tell::answered_of, stages::specs::Stages::told_of))]
pub fn interpret_code(x: State, settings: Settings, code: u8) -> Result<Step, Refusal>
    ensures { result ≡ answered_of settings x code }
{
    match code {
        0 => Ok(x.done(settings)),
        1 => Ok(x.unsupported(settings)),
        2..=199 => Ok(x.ends(code)),
        _ => Err(Refusal::NoAnswer),
    }
}

impl Dock {
    // The code for the job in `slot`: 208 where no request of it is out, 209 for what is no answer.
    #[tactic(auto, unfolding(crate::specs::Tell::told_at))]
    fn tell_slot(
        &self,
        slot: usize,
        code: u8,
        data: &mut [u8],
        scratch: &mut [u8],
    ) -> Result<Stepping, Refusal>
        requires place { slot < 8 }
        requires lent { lent_fits self.now.buffers (length «data».old) (length scratch.old) ≡ true }
        ensures { StepGives (told_in self.now slot code «data».old scratch.old) result «data».new scratch.new }
    {
        let b = self.blockers;
        let x = self.states[slot];
        if !is_out(b, x, slot) || !is_sound_in(x, self.settings, self.buffers) {
            return Err(Refusal::Slot);
        }
        match interpret_code(x, self.settings, code) {
            Err(r) => Err(r),
            Ok(step) => {
                let place = Place {
                    slot,
                    share: slot * self.settings.bounce as usize,
                    vector: self.vectors[slot],
                };
                place.take_step(b, x, code, step, data, scratch)
            }
        }
    }

    // Hand in the code of the request that is out.
    #[tactic(auto, unfolding(crate::specs::Tell::tell_of))]
    pub fn tell(mut self, slot: usize, code: u8, data: &mut [u8], scratch: &mut [u8]) -> Telling
        ensures { tells result «data».new scratch.new
            ≡ tell_of self slot code «data».old scratch.old }
    {
        if !lent_fits(self.buffers, data.len(), scratch.len()) {
            return Telling {
                outcome: Err(Refusal::Buffer),
                dock: self,
            };
        }
        if SLOTS <= slot {
            return Telling {
                outcome: Err(Refusal::Slot),
                dock: self,
            };
        }
        let told = match self.tell_slot(slot, code, data, scratch) {
            Ok(told) => told,
            Err(r) => {
                return Telling {
                    outcome: Err(r),
                    dock: self,
                };
            }
        };
        self.blockers = told.blockers;
        self.states[slot] = told.state;
        Telling {
            outcome: Ok(()),
            dock: self,
        }
    }

    // Take the final answer; the slot is free again.
    #[tactic(auto, unfolding(crate::specs::Tell::collect_of))]
    pub fn collect(mut self, slot: usize, data: &[u8], scratch: &[u8]) -> Collects
        ensures { result ≡ collect_of self slot (length «data».now) (length scratch.now) }
    {
        if !lent_fits(self.buffers, data.len(), scratch.len()) {
            return Collects {
                answer: Err(Refusal::Buffer),
                dock: self,
            };
        }
        if SLOTS <= slot {
            return Collects {
                answer: Err(Refusal::Slot),
                dock: self,
            };
        }
        let x = self.states[slot];
        if !has_ended(x.phase) {
            return Collects {
                answer: Err(Refusal::Slot),
                dock: self,
            };
        }
        self.states[slot] = make_vacant();
        self.vectors[slot] = IoVector::new();
        Collects {
            answer: Ok(x.answer),
            dock: self,
        }
    }
}
