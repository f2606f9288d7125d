// The calls on a dock in words, which a host holds as four arrays. For any words. The four are parameters of their own, and no struct of
// references: each call lends others of them to be written, and C hands over four pointers.
ghost use Rattle.std.specs.Prelude.{◌≡◌};
ghost use Rattle.dock.specs.Dock.{fresh, open_of, open_by};
ghost use Rattle.dock.specs.Begin.{begin_of};
ghost use Rattle.dock.specs.Next.{next_of, piece_of};
ghost use Rattle.dock.specs.Tell.{tell_of, collect_of, CollectGives};
ghost use Rattle.dock_words.specs.View.{dock_of};
ghost use Rattle.arithmetic.specs.Refusals.{is_done};
ghost use Rattle.dock_words.specs.CallWords.{is_admitted, is_final, same_two, same_three, opens_over, begins_in, tells_in};

use crate::begun_words::{admit, overlaps};
pub use crate::blocker_words::{enter, leave, waits};
pub use crate::rows::{BlockerRows, SettingRow, StateRows, VectorRow, VectorRows};
pub use crate::setting_words::settings_of;
use crate::setting_words::{Place, buffers_of, put_settings};
use crate::state_words::{first_free, get_state, put_state};
use crate::told_words::{is_out, tell_slot};
use arithmetic::refusals::Refusal;
use arithmetic::settings::{Alignments, Buffers, Settings, check_opening};
use dock::begin::{Asked, decide, plan_asked, select_vector};
use dock::dock::{SLOTS, check_lent, lent_fits};
use dock::next::{Due, Piece, due_now, piece_in};
use dock::open::make_vacant;
use stages::state::has_ended;
use vectors::vector::IoVector;
pub use vectors::words::{get_vector as vector_of, put_vector as put_vector_of};
use vectors::words::{buffer_count, get_vector, put_vector};

// The words of a dock with eight free slots.
fn set_fresh(
    settings: &mut SettingRow,
    blockers: &mut BlockerRows,
    states: &mut StateRows,
    vectors: &mut VectorRows,
    s: Settings,
    b: Buffers,
)
    ensures { dock_of settings.new blockers.new states.new vectors.new ≡ fresh s b }
{
    put_settings(settings, s, b);
    *blockers = [[0; 11]; SLOTS];
    *states = [[0; 18]; SLOTS];
    *vectors = [[0; 34]; SLOTS];
}

// Open with alignments: refused with 201, then 205, before a word is written.
pub fn open(
    settings: &mut SettingRow,
    blockers: &mut BlockerRows,
    states: &mut StateRows,
    vectors: &mut VectorRows,
    s: Settings,
    b: Buffers,
) -> Result<(), Refusal>
    ensures { (result ≡ (open_of s b).outcome) × opens_over (open_of s b)
        settings.old blockers.old states.old vectors.old
        settings.new blockers.new states.new vectors.new }
{
    check_opening(s, b)?;
    set_fresh(settings, blockers, states, vectors, s, b);
    Ok(())
}

// Open by drive profile (document 01: a drive row), a built-in one or one of a loaded table: refused with 201, then 205.
pub fn open_by(
    settings: &mut SettingRow,
    blockers: &mut BlockerRows,
    states: &mut StateRows,
    vectors: &mut VectorRows,
    profile: Result<Alignments, Refusal>,
    bounce: u64,
    b: Buffers,
) -> Result<(), Refusal>
    ensures { (result ≡ (open_by profile bounce b).outcome) × opens_over (open_by profile bounce b)
        settings.old blockers.old states.old vectors.old
        settings.new blockers.new states.new vectors.new }
{
    let align = profile?;
    let s = Settings { align, bounce };
    open(settings, blockers, states, vectors, s, b)
}

// Begin what is asked, in the lowest free slot.
pub fn begin(
    settings: &SettingRow,
    blockers: &mut BlockerRows,
    states: &mut StateRows,
    vectors: &mut VectorRows,
    asked: Asked,
    data: &[u8],
    scratch: &mut [u8],
) -> Result<Option<usize>, Refusal>
    ensures dock { begins_in result settings.now blockers.new states.new vectors.new
        scratch.new
        ≡ begin_of (dock_of settings.now blockers.old states.old vectors.old)
        asked «data».now scratch.old }
    ensures words { same_three (is_admitted result) blockers.old states.old vectors.old
        blockers.new states.new vectors.new }
{
    let s = settings_of(settings);
    let b = buffers_of(settings);
    let job = asked.job;
    let v = select_vector(job, asked.vector);
    let met = overlaps(states, vectors, job, v);
    let lent = check_lent(s, b, data.len(), scratch.len());
    let free = first_free(states);
    let first = plan_asked(asked, s, b);
    let plan = decide(lent, v.is_valid(data.len()), first, met, free);
    let place = Place {
        slot: free,
        settings: s,
        buffers: b,
    };
    admit(blockers, states, vectors, place, plan, v, data, scratch)
}

// What the job in `slot` needs now. Changes nothing.
pub fn next(
    settings: &SettingRow,
    blockers: &BlockerRows,
    states: &StateRows,
    vectors: &VectorRows,
    slot: usize,
    data_len: usize,
    scratch_len: usize,
) -> Result<Due, Refusal>
    ensures { result ≡ next_of (dock_of settings.now blockers.now states.now vectors.now) slot
        data_len scratch_len }
{
    let lent = buffers_of(settings);
    if !lent_fits(lent, data_len, scratch_len) {
        return Err(Refusal::Buffer);
    }
    if SLOTS <= slot {
        return Err(Refusal::Slot);
    }
    let waiting = waits(blockers, slot);
    due_now(
        get_state(&states[slot]),
        waiting,
        buffer_count(&vectors[slot]),
    )
}

// Where piece i of the request that is out in `slot` lies.
pub fn piece(
    settings: &SettingRow,
    blockers: &BlockerRows,
    states: &StateRows,
    vectors: &VectorRows,
    slot: usize,
    i: usize,
    data_len: usize,
    scratch_len: usize,
) -> Result<Piece, Refusal>
    ensures { result ≡ piece_of (dock_of settings.now blockers.now states.now vectors.now) slot
        i data_len scratch_len }
{
    let lent = buffers_of(settings);
    if !lent_fits(lent, data_len, scratch_len) {
        return Err(Refusal::Buffer);
    }
    if SLOTS <= slot {
        return Err(Refusal::Slot);
    }
    let x = get_state(&states[slot]);
    if !is_out(blockers, x, slot) {
        return Err(Refusal::Slot);
    }
    let s = settings_of(settings);
    let v = get_vector(&vectors[slot]);
    piece_in(slot, s, lent, x, v, i, data_len)
}

// Hand in the code of the request that is out in `slot`.
pub fn tell(
    settings: &SettingRow,
    blockers: &mut BlockerRows,
    states: &mut StateRows,
    vectors: &VectorRows,
    slot: usize,
    code: u8,
    data: &mut [u8],
    scratch: &mut [u8],
) -> Result<(), Refusal>
    ensures dock { tells_in result settings.now blockers.new states.new vectors.now
        «data».new scratch.new
        ≡ tell_of (dock_of settings.now blockers.old states.old vectors.now)
        slot code «data».old scratch.old }
    ensures words { same_two (is_done result) blockers.old states.old blockers.new states.new }
{
    let b = buffers_of(settings);
    if !lent_fits(b, data.len(), scratch.len()) {
        return Err(Refusal::Buffer);
    }
    if SLOTS <= slot {
        return Err(Refusal::Slot);
    }
    let place = Place {
        slot,
        settings: settings_of(settings),
        buffers: b,
    };
    let x = get_state(&states[slot]);
    tell_slot(
        blockers,
        states,
        &vectors[slot],
        place,
        x,
        code,
        data,
        scratch,
    )
}

// Take the final answer; the slot is free again.
pub fn collect(
    settings: &SettingRow,
    blockers: &BlockerRows,
    states: &mut StateRows,
    vectors: &mut VectorRows,
    slot: usize,
    data_len: usize,
    scratch_len: usize,
) -> Result<u8, Refusal>
    ensures dock { CollectGives (collect_of
        (dock_of settings.now blockers.now states.old vectors.old) slot data_len scratch_len)
        result (dock_of settings.now blockers.now states.new vectors.new) }
    ensures words { same_two (is_final result) states.old vectors.old states.new vectors.new }
{
    let lent = buffers_of(settings);
    if !lent_fits(lent, data_len, scratch_len) {
        return Err(Refusal::Buffer);
    }
    if SLOTS <= slot {
        return Err(Refusal::Slot);
    }
    let x = get_state(&states[slot]);
    if !has_ended(x.phase) {
        return Err(Refusal::Slot);
    }
    put_state(&mut states[slot], make_vacant());
    put_vector(&mut vectors[slot], IoVector::new());
    Ok(x.answer)
}
