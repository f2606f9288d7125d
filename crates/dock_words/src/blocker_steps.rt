// The blocker of one job: whether it can leave or enter, and both in place.
ghost use Rattle.std.specs.Prelude.{◌≡◌};
ghost use Rattle.dock.specs.Begin.{blockers_with};
ghost use Rattle.dock.specs.Tell.{blockers_without};
ghost use Rattle.dock_words.specs.View.{blockers_of};
ghost use Rattle.arithmetic.specs.Refusals.{is_done};
ghost use Rattle.blockers.specs.Blockers.{strength};
ghost use Rattle.dock_words.specs.CallWords.{changes, ChangesBlockers};

use crate::blocker_words::{enter, is_entered_at, leave};
use crate::rows::BlockerRows;
use arithmetic::refusals::Refusal;
use blockers::strength;
use dock::dock::SLOTS;
use stages::state::{State, is_blocking};

// Whether the blocker of the job x can leave: it is entered, or the job has none.
pub(crate) fn may_leave(blockers: &BlockerRows, slot: usize, x: State) -> bool
    ensures { result ≡ is_done (blockers_without (blockers_of blockers.now) slot x).outcome }
{
    !is_blocking(x.phase) || is_entered_at(blockers, slot)
}

// Whether the blocker of the job x can enter: none is entered, or the job has none.
pub(crate) fn may_enter(blockers: &BlockerRows, slot: usize, x: State) -> bool
    ensures { result ≡ is_done (blockers_with (blockers_of blockers.now) slot x).outcome }
{
    !is_blocking(x.phase) || (slot < SLOTS && !is_entered_at(blockers, slot))
}

// It leaves.
pub(crate) fn leave_blocker(
    blockers: &mut BlockerRows,
    slot: usize,
    x: State,
) -> Result<(), Refusal>
    ensures { ChangesBlockers (blockers_without (blockers_of blockers.old) slot x) result
        blockers.old blockers.new }
{
    if !is_blocking(x.phase) {
        return Ok(());
    }
    leave(blockers, slot)
}

// It enters.
pub(crate) fn enter_blocker(
    blockers: &mut BlockerRows,
    slot: usize,
    x: State,
) -> Result<(), Refusal>
    ensures { ChangesBlockers (blockers_with (blockers_of blockers.old) slot x) result
        blockers.old blockers.new }
{
    if !is_blocking(x.phase) {
        return Ok(());
    }
    enter(blockers, strength(x.stage.strong), slot, x.stage.request)
}

// Whether the blocker of the job can leave for its stage x, and enter for its stage y.
pub(crate) fn may_change(blockers: &BlockerRows, slot: usize, x: State, y: State) -> bool
    ensures { result ≡ is_done (changes (blockers_of blockers.now) slot x y) }
{
    if is_blocking(x.phase) {
        may_leave(blockers, slot, x)
    } else {
        may_enter(blockers, slot, y)
    }
}

// It leaves, then enters.
pub(crate) fn change_blocker(blockers: &mut BlockerRows, slot: usize, x: State, y: State)
    ensures { blockers_of blockers.new ≡ (blockers_with
        (blockers_without (blockers_of blockers.old) slot x).blockers slot y).blockers }
{
    let _ = leave_blocker(blockers, slot, x); // whether both can is asked before
    let _ = enter_blocker(blockers, slot, y);
}
