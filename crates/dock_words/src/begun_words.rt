// What a begin does to the words: whether its vector meets another, and the job that comes to its slot.
ghost use Rattle.std.specs.Prelude.{◌≡◌, true, ◌<◌, length, zip};
ghost use Rattle.std.specs.List.{list_any};
ghost use Rattle.dock.specs.Dock.{meets_of, overlaps_of};
ghost use Rattle.dock.specs.Next.{is_sound_at};
ghost use Rattle.dock.specs.Slots.{PlanSound};
ghost use Rattle.dock.specs.Begin.{admit_at};
ghost use Rattle.dock_words.specs.View.{blockers_of, states_of, vectors_of, state_from};
ghost use Rattle.vectors.specs.Words.{vector_from};
ghost use Rattle.dock_words.specs.CallWords.{is_admitted, same_three, StoresJob};

use crate::blocker_steps::{enter_blocker, may_enter};
use crate::rows::{BlockerRows, StateRow, StateRows, VectorRow, VectorRows};
use crate::setting_words::Place;
use crate::state_words::{get_state, is_free_row, put_state};
use arithmetic::refusals::Refusal;
use dock::bytes::fill_share;
use dock::dock::{SLOTS, meets, meets_itself};
use stages::state::{Job, State};
use vectors::vector::IoVector;
use vectors::words::{get_vector, put_vector};

// Whether a job's vector meets that of a slot, of which one reads. The vector of a free slot is not read.
#[tactic(auto, unfolding(dock::specs::Dock::meets_of))]
fn meets_row(state: &StateRow, vector: &VectorRow, job: Job, v: IoVector) -> bool
    ensures { result ≡ meets_of (state_from state.now) (vector_from vector.now) job v }
{
    if is_free_row(state) {
        return false;
    }
    meets(get_state(state), get_vector(vector), job, v)
}

// Whether it meets that of one of the slots.
fn meets_any(states: &StateRows, vectors: &VectorRows, job: Job, v: IoVector) -> bool
    ensures { result ≡ list_any (λ r. meets_of (state_from r.0) (vector_from r.1) job v) (zip states.now vectors.now) }
{
    states
        .iter()
        .zip(vectors)
        .any(|(state, vector)| meets_row(state, vector, job, v))
}

// Whether the vector meets itself or another where one reads.
pub(crate) fn overlaps(states: &StateRows, vectors: &VectorRows, job: Job, v: IoVector) -> bool
    ensures { result ≡ overlaps_of (states_of states.now) (vectors_of vectors.now) job v }
{
    meets_itself(job, v) || meets_any(states, vectors, job, v)
}

// The job x comes to its slot: its bytes are filled, its blocker enters, and it is stored with its vector.
fn admit_started(
    blockers: &mut BlockerRows,
    states: &mut StateRows,
    vectors: &mut VectorRows,
    place: Place,
    x: State,
    v: IoVector,
    data: &[u8],
    scratch: &mut [u8],
) -> Result<Option<usize>, Refusal>
    requires { (place.slot < 8) × (is_sound_at place.slot x place.settings place.buffers (length scratch.old) ≡ true) }
    ensures dock { StoresJob (admit_at (blockers_of blockers.old) place.slot place.settings.bounce v
        «data».now scratch.old ((Ok (Some x)))) v
        blockers.old states.old vectors.old
        result blockers.new states.new vectors.new scratch.new }
    ensures words { same_three (is_admitted result) blockers.old states.old vectors.old
        blockers.new states.new vectors.new }
{
    if !may_enter(blockers, place.slot, x) {
        return Err(Refusal::Slot);
    }
    fill_share(
        place.slot,
        place.settings,
        place.buffers,
        x,
        v,
        data,
        scratch,
    )?;
    let _ = enter_blocker(blockers, place.slot, x); // it can, by the test above
    put_state(&mut states[place.slot], x);
    put_vector(&mut vectors[place.slot], v);
    Ok(Some(place.slot))
}

// A decided job comes to its slot.
pub(crate) fn admit(
    blockers: &mut BlockerRows,
    states: &mut StateRows,
    vectors: &mut VectorRows,
    place: Place,
    plan: Result<Option<State>, Refusal>,
    v: IoVector,
    data: &[u8],
    scratch: &mut [u8],
) -> Result<Option<usize>, Refusal>
    requires { PlanSound place.slot place.settings place.buffers (length scratch.old) plan }
    ensures dock { StoresJob (admit_at (blockers_of blockers.old) place.slot place.settings.bounce v
        «data».now scratch.old plan) v
        blockers.old states.old vectors.old
        result blockers.new states.new vectors.new scratch.new }
    ensures words { same_three (is_admitted result) blockers.old states.old vectors.old
        blockers.new states.new vectors.new }
{
    let Some(x) = plan? else {
        return Ok(None);
    };
    admit_started(blockers, states, vectors, place, x, v, data, scratch)
}
