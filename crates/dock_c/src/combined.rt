// The combined calls of the boundary: one for each request. The nine words of a reply: what it is (0 refused, 1 the final answer,
// 2 waiting, 3 a request); the number, or the slot; of the request kind, offset, length and pieces; of its first piece buffer,
// start and length.
ghost use Rattle.std.specs.Prelude.{◌≡◌};
ghost use Rattle.arithmetic.specs.Offsets.{store_at};
ghost use Rattle.arithmetic.specs.Refusals.{is_done};
ghost use Rattle.dock.specs.Begin.{begin_of, read_of, write_of, zeroes_of, discard_of};
ghost use Rattle.dock.specs.Tell.{tell_of};
ghost use Rattle.dock_words.specs.View.{flag_of, dock_of};
ghost use Rattle.vectors.specs.Words.{vector_from};
ghost use Rattle.dock_words.specs.CallWords.{is_admitted, same_two, same_three};
ghost use Rattle.dock_shown.specs.Shown.{is_collected, show_of, ShowsAs, submit_of, complete_of, LeavesBytes};

use arithmetic::offsets::StoreOffset;
use dock::begin::Asked;
use dock_shown::shown::{complete, show, submit};
use dock_words::arrays::{BlockerRows, SettingRow, StateRows, VectorRow, VectorRows, vector_of};

// Begin a read of the vector's length at `offset` into the data, and show it.
#[unsafe(no_mangle)]
pub extern "C" fn dock_words_submit_read(
    settings: &SettingRow,
    blockers: &mut BlockerRows,
    states: &mut StateRows,
    vectors: &mut VectorRows,
    offset: u64,
    vector: &VectorRow,
    data: &[u8],
    scratch: &mut [u8],
    reply: &mut [u64; 9],
)
    ensures dock { ShowsAs (submit_of
        (dock_of settings.now blockers.old states.old vectors.old)
        (read_of (store_at offset) (vector_from vector.now)) «data».now scratch.old)
        reply.new (dock_of settings.now blockers.new states.new vectors.new) }
    ensures bytes { scratch.new ≡ (begin_of
        (dock_of settings.now blockers.old states.old vectors.old)
        (read_of (store_at offset) (vector_from vector.now)) «data».now scratch.old).scratch }
    ensures words { same_three (is_admitted (begin_of
        (dock_of settings.now blockers.old states.old vectors.old)
        (read_of (store_at offset) (vector_from vector.now)) «data».now scratch.old).answer)
        blockers.old states.old vectors.old
        blockers.new states.new vectors.new }
{
    let asked = Asked::read(StoreOffset(offset), vector_of(vector));
    submit(
        settings, blockers, states, vectors, asked, data, scratch, reply,
    );
}

// Begin a write of the vector's bytes at `offset`, and show it.
#[unsafe(no_mangle)]
pub extern "C" fn dock_words_submit_write(
    settings: &SettingRow,
    blockers: &mut BlockerRows,
    states: &mut StateRows,
    vectors: &mut VectorRows,
    offset: u64,
    vector: &VectorRow,
    data: &[u8],
    scratch: &mut [u8],
    reply: &mut [u64; 9],
)
    ensures dock { ShowsAs (submit_of
        (dock_of settings.now blockers.old states.old vectors.old)
        (write_of (store_at offset) (vector_from vector.now)) «data».now scratch.old)
        reply.new (dock_of settings.now blockers.new states.new vectors.new) }
    ensures bytes { scratch.new ≡ (begin_of
        (dock_of settings.now blockers.old states.old vectors.old)
        (write_of (store_at offset) (vector_from vector.now)) «data».now scratch.old).scratch }
    ensures words { same_three (is_admitted (begin_of
        (dock_of settings.now blockers.old states.old vectors.old)
        (write_of (store_at offset) (vector_from vector.now)) «data».now scratch.old).answer)
        blockers.old states.old vectors.old
        blockers.new states.new vectors.new }
{
    let asked = Asked::write(StoreOffset(offset), vector_of(vector));
    submit(
        settings, blockers, states, vectors, asked, data, scratch, reply,
    );
}

// Begin zeroes, plain or allocating, and show them.
#[unsafe(no_mangle)]
pub extern "C" fn dock_words_submit_zeroes(
    settings: &SettingRow,
    blockers: &mut BlockerRows,
    states: &mut StateRows,
    vectors: &mut VectorRows,
    allocate: u8,
    offset: u64,
    length: u64,
    data: &[u8],
    scratch: &mut [u8],
    reply: &mut [u64; 9],
)
    ensures dock { ShowsAs (submit_of
        (dock_of settings.now blockers.old states.old vectors.old)
        (zeroes_of (flag_of allocate) (store_at offset) length) «data».now scratch.old)
        reply.new (dock_of settings.now blockers.new states.new vectors.new) }
    ensures bytes { scratch.new ≡ (begin_of
        (dock_of settings.now blockers.old states.old vectors.old)
        (zeroes_of (flag_of allocate) (store_at offset) length) «data».now scratch.old).scratch }
    ensures words { same_three (is_admitted (begin_of
        (dock_of settings.now blockers.old states.old vectors.old)
        (zeroes_of (flag_of allocate) (store_at offset) length) «data».now scratch.old).answer)
        blockers.old states.old vectors.old
        blockers.new states.new vectors.new }
{
    let asked = Asked::zeroes(allocate != 0, StoreOffset(offset), length);
    submit(
        settings, blockers, states, vectors, asked, data, scratch, reply,
    );
}

// Begin a discard, and show it.
#[unsafe(no_mangle)]
pub extern "C" fn dock_words_submit_discard(
    settings: &SettingRow,
    blockers: &mut BlockerRows,
    states: &mut StateRows,
    vectors: &mut VectorRows,
    offset: u64,
    length: u64,
    data: &[u8],
    scratch: &mut [u8],
    reply: &mut [u64; 9],
)
    ensures dock { ShowsAs (submit_of
        (dock_of settings.now blockers.old states.old vectors.old)
        (discard_of (store_at offset) length) «data».now scratch.old)
        reply.new (dock_of settings.now blockers.new states.new vectors.new) }
    ensures bytes { scratch.new ≡ (begin_of
        (dock_of settings.now blockers.old states.old vectors.old)
        (discard_of (store_at offset) length) «data».now scratch.old).scratch }
    ensures words { same_three (is_admitted (begin_of
        (dock_of settings.now blockers.old states.old vectors.old)
        (discard_of (store_at offset) length) «data».now scratch.old).answer)
        blockers.old states.old vectors.old
        blockers.new states.new vectors.new }
{
    let asked = Asked::discard(StoreOffset(offset), length);
    submit(
        settings, blockers, states, vectors, asked, data, scratch, reply,
    );
}

// Hand in the code of the request that is out in `slot`, and show the slot.
#[unsafe(no_mangle)]
pub extern "C" fn dock_words_complete(
    settings: &SettingRow,
    blockers: &mut BlockerRows,
    states: &mut StateRows,
    vectors: &mut VectorRows,
    slot: usize,
    code: u8,
    data: &mut [u8],
    scratch: &mut [u8],
    reply: &mut [u64; 9],
)
    ensures dock { ShowsAs (complete_of
        (dock_of settings.now blockers.old states.old vectors.old)
        slot code «data».old scratch.old)
        reply.new (dock_of settings.now blockers.new states.new vectors.new) }
    ensures bytes { LeavesBytes (tell_of
        (dock_of settings.now blockers.old states.old vectors.old)
        slot code «data».old scratch.old) «data».new scratch.new }
    ensures words { same_three (is_done (tell_of
        (dock_of settings.now blockers.old states.old vectors.old)
        slot code «data».old scratch.old).outcome)
        blockers.old states.old vectors.old
        blockers.new states.new vectors.new }
{
    complete(
        settings, blockers, states, vectors, slot, code, data, scratch, reply,
    );
}

// What the job in `slot` needs now, with its first piece; a final answer is collected.
#[unsafe(no_mangle)]
pub extern "C" fn dock_words_show(
    settings: &SettingRow,
    blockers: &BlockerRows,
    states: &mut StateRows,
    vectors: &mut VectorRows,
    slot: usize,
    data_len: usize,
    scratch_len: usize,
    reply: &mut [u64; 9],
)
    ensures dock { ShowsAs (show_of
        (dock_of settings.now blockers.now states.old vectors.old)
        slot data_len scratch_len)
        reply.new (dock_of settings.now blockers.now states.new vectors.new) }
    ensures words { same_two (is_collected (show_of
        (dock_of settings.now blockers.now states.old vectors.old)
        slot data_len scratch_len).answer) states.old vectors.old states.new
        vectors.new }
{
    show(
        settings,
        blockers,
        states,
        vectors,
        slot,
        data_len,
        scratch_len,
        reply,
    );
}
