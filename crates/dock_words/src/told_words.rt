// What a tell does to one slot in words: bytes first, then blockers and state, so that a refusal changes nothing.
ghost use Rattle.std.specs.Prelude.{◌≡◌, true, ◌*◌, ◌<◌, length};
ghost use Rattle.dock.specs.Dock.{is_out_by, lent_fits};
ghost use Rattle.dock.specs.Begin.{fills};
ghost use Rattle.dock.specs.Next.{is_sound_at};
ghost use Rattle.dock.specs.Tell.{hands, stays_at, ends_at, enters_at, stepped_at, told_at};
ghost use Rattle.dock.specs.Slots.{filled_share, handed_share, StepSound};
ghost use Rattle.dock_words.specs.View.{blockers_of};
ghost use Rattle.vectors.specs.Words.{vector_from};
ghost use Rattle.arithmetic.specs.Refusals.{is_done};
ghost use Rattle.dock_words.specs.CallWords.{same_unless, same_two, StoresStep};

use crate::blocker_steps::{change_blocker, leave_blocker, may_change, may_leave};
use crate::blocker_words::waits;
use crate::rows::{BlockerRows, StateRows, VectorRow};
use crate::setting_words::Place;
use crate::state_words::put_state;
use arithmetic::refusals::Refusal;
use dock::bytes::{fill_share, hand_out_share, is_bounced_read, is_bounced_write};
use dock::next::is_sound_in;
use dock::tell::interpret_code;
use stages::state::{State, has_ended, is_free};
use stages::told::Step;
use vectors::words::get_vector;

// Whether the request of the job x in `slot` is out.
pub(crate) fn is_out(blockers: &BlockerRows, x: State, slot: usize) -> bool
    ensures { result ≡ is_out_by (blockers_of blockers.now) x slot }
{
    if is_free(x.phase) || has_ended(x.phase) {
        return false;
    }
    !waits(blockers, slot)
}

// The asked part of the share is filled; the vector is read only where it is.
fn fill(
    vector: &VectorRow,
    place: Place,
    x: State,
    data: &[u8],
    scratch: &mut [u8],
) -> Result<(), Refusal>
    ensures { fills result scratch.new ≡ filled_share place.slot place.settings place.buffers x
        (vector_from vector.now) «data».now scratch.old }
{
    if !is_bounced_write(x.phase) {
        return Ok(());
    }
    let v = get_vector(vector);
    fill_share(
        place.slot,
        place.settings,
        place.buffers,
        x,
        v,
        data,
        scratch,
    )
}

// The asked bytes of a padded read are copied out; the vector is read only where they are.
fn hand_out(
    vector: &VectorRow,
    place: Place,
    x: State,
    code: u8,
    data: &mut [u8],
    scratch: &[u8],
) -> Result<(), Refusal>
    ensures { hands result «data».new ≡ handed_share place.slot place.settings place.buffers x code
        (vector_from vector.now) «data».old scratch.now }
{
    if !is_bounced_read(x.phase) {
        return Ok(());
    }
    let v = get_vector(vector);
    hand_out_share(
        place.slot,
        place.settings,
        place.buffers,
        x,
        code,
        v,
        data,
        scratch,
    )
}

// The job goes on in its stage as y.
fn stays(
    blockers: &BlockerRows,
    states: &mut StateRows,
    vector: &VectorRow,
    place: Place,
    y: State,
    data: &[u8],
    scratch: &mut [u8],
) -> Result<(), Refusal>
    requires { (place.slot < 8) × (is_sound_at place.slot y place.settings place.buffers (length scratch.old) ≡ true) }
    ensures dock { StoresStep (stays_at (blockers_of blockers.now) (place.slot * place.settings.bounce) y
        (vector_from vector.now) «data».now scratch.old)
        place.slot blockers.now states.old
        result blockers.now states.new «data».now scratch.new }
    ensures words { same_unless (is_done result) states.old states.new }
{
    fill(vector, place, y, data, scratch)?;
    put_state(&mut states[place.slot], y);
    Ok(())
}

// The job x ends as y: its blocker leaves, and a padded read's bytes are copied out.
fn ends(
    blockers: &mut BlockerRows,
    states: &mut StateRows,
    vector: &VectorRow,
    place: Place,
    x: State,
    code: u8,
    y: State,
    data: &mut [u8],
    scratch: &[u8],
) -> Result<(), Refusal>
    requires { (place.slot < 8) × (is_sound_at place.slot x place.settings place.buffers (length scratch.now) ≡ true) }
    ensures dock { StoresStep (ends_at (blockers_of blockers.old) place.slot (place.slot * place.settings.bounce) x code y
        (vector_from vector.now) «data».old scratch.now)
        place.slot blockers.old states.old
        result blockers.new states.new «data».new scratch.now }
    ensures words { same_two (is_done result) blockers.old states.old blockers.new states.new }
{
    if !may_leave(blockers, place.slot, x) {
        return Err(Refusal::Slot);
    }
    hand_out(vector, place, x, code, data, scratch)?;
    let left = leave_blocker(blockers, place.slot, x);
    put_state(&mut states[place.slot], y);
    left
}

// The job x enters its next stage as y: its blocker leaves first, then the next one enters and notes all that are entered then.
fn enters(
    blockers: &mut BlockerRows,
    states: &mut StateRows,
    vector: &VectorRow,
    place: Place,
    x: State,
    y: State,
    data: &[u8],
    scratch: &mut [u8],
) -> Result<(), Refusal>
    requires { (place.slot < 8) × (is_sound_at place.slot y place.settings place.buffers (length scratch.old) ≡ true) }
    ensures dock { StoresStep (enters_at (blockers_of blockers.old) place.slot (place.slot * place.settings.bounce) x y
        (vector_from vector.now) «data».now scratch.old)
        place.slot blockers.old states.old
        result blockers.new states.new «data».now scratch.new }
    ensures words { same_two (is_done result) blockers.old states.old blockers.new states.new }
{
    if !may_change(blockers, place.slot, x, y) {
        return Err(Refusal::Slot);
    }
    fill(vector, place, y, data, scratch)?;
    change_blocker(blockers, place.slot, x, y);
    put_state(&mut states[place.slot], y);
    Ok(())
}

// The job x after its step, which is matched as in crate dock.
fn take_step(
    blockers: &mut BlockerRows,
    states: &mut StateRows,
    vector: &VectorRow,
    place: Place,
    x: State,
    code: u8,
    step: Step,
    data: &mut [u8],
    scratch: &mut [u8],
) -> Result<(), Refusal>
    requires { (place.slot < 8) × (StepSound place.slot place.settings place.buffers x (length scratch.old) step) }
    ensures dock { StoresStep (stepped_at (blockers_of blockers.old) place.slot (place.slot * place.settings.bounce) x code
        (vector_from vector.now) «data».old scratch.old step)
        place.slot blockers.old states.old
        result blockers.new states.new «data».new scratch.new }
    ensures words { same_two (is_done result) blockers.old states.old blockers.new states.new }
{
    match step {
        Step::Stays(y) => stays(blockers, states, vector, place, y, data, scratch),
        Step::Ends(y) => ends(blockers, states, vector, place, x, code, y, data, scratch),
        Step::Enters(y) => enters(blockers, states, vector, place, x, y, data, scratch),
    }
}

// The code for the job x of a slot: 208 where no request of it is out, 209 for what is no answer.
pub(crate) fn tell_slot(
    blockers: &mut BlockerRows,
    states: &mut StateRows,
    vector: &VectorRow,
    place: Place,
    x: State,
    code: u8,
    data: &mut [u8],
    scratch: &mut [u8],
) -> Result<(), Refusal>
    requires { (place.slot < 8) × (lent_fits place.buffers (length «data».old) (length scratch.old) ≡ true) }
    ensures dock { StoresStep (told_at (blockers_of blockers.old) place.slot place.settings place.buffers x
        (vector_from vector.now) code «data».old scratch.old)
        place.slot blockers.old states.old
        result blockers.new states.new «data».new scratch.new }
    ensures words { same_two (is_done result) blockers.old states.old blockers.new states.new }
{
    if !is_out(blockers, x, place.slot) {
        return Err(Refusal::Slot);
    }
    if !is_sound_in(x, place.settings, place.buffers) {
        return Err(Refusal::Slot);
    }
    let step = interpret_code(x, place.settings, code)?;
    take_step(
        blockers, states, vector, place, x, code, step, data, scratch,
    )
}
