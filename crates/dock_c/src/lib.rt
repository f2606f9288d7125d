// The boundary: what C or Rust calls. The arrays have the lengths declared here; data and scratch are a pointer and a length. For any
// words. Here and in `combined` settings, blockers, states and vectors stand in every contract: the C interface has them as four arrays.
#![tactic(auto)]

mod replies; // answers, as they cross
pub mod parts; // vectors and blockers alone
pub mod drive_tables; // loading a drive table, and its rows
pub mod parameter_sheets; // many writes joined to few
pub mod combined; // the calls that also show what is next

ghost use Rattle.std.specs.Prelude.{◌≡◌};
ghost use Rattle.arithmetic.specs.Offsets.{store_at};
ghost use Rattle.arithmetic.specs.Refusals.{outcome_number, is_done};
ghost use Rattle.arithmetic.specs.Planner.{count_of, planned_of};
ghost use Rattle.dock.specs.Dock.{open_of, open_by, open_profile_of};
ghost use Rattle.dock.specs.Begin.{begin_of, read_of, write_of, zeroes_of, discard_of};
ghost use Rattle.dock.specs.Next.{next_of, piece_of};
ghost use Rattle.dock.specs.Tell.{tell_of, collect_of};
ghost use Rattle.dock.specs.Numbers.{due_paper, piece_paper};
ghost use Rattle.dock_words.specs.View.{flag_of, settings_of, dock_of};
ghost use Rattle.vectors.specs.Words.{vector_from};
ghost use Rattle.dock_words.specs.CallWords.{is_admitted, is_final, same_two, same_three, opens_over};
ghost use Rattle.tables.specs.Tables.{profile_in};
ghost use Rattle.tables.specs.Words.{table_from};
ghost use Rattle.dock_c.specs.Replies.{settings_by, buffers_by, reply_of, count_paper, planned_paper, BeginsAs, TellsAs, CollectsAs};

use crate::replies::{Reply, collected_number};
use arithmetic::offsets::StoreOffset;
use arithmetic::planner::{count_chunks, plan_chunk};
use arithmetic::refusals::outcome_number;
use arithmetic::settings::{Alignments, Buffers, Lent, Settings, drive_profile};
use dock::begin::Asked;
use dock_words::arrays::{
    BlockerRows, SettingRow, StateRows, VectorRow, VectorRows, begin, collect, next, open, open_by,
    piece, settings_of, tell, vector_of,
};
use tables::words::row_of;

// The buffers of an opening, from its numbers.
fn buffers_of(
    data_address: u64,
    data_length: u64,
    scratch_address: u64,
    scratch_length: u64,
) -> Buffers
    ensures { result ≡ buffers_by data_address data_length scratch_address scratch_length }
{
    let data = Lent {
        address: data_address,
        length: data_length,
    };
    let scratch = Lent {
        address: scratch_address,
        length: scratch_length,
    };
    Buffers { data, scratch }
}

// Open with alignments.
#[unsafe(no_mangle)]
pub extern "C" fn dock_words_open(
    settings: &mut SettingRow,
    blockers: &mut BlockerRows,
    states: &mut StateRows,
    vectors: &mut VectorRows,
    mem: u64,
    req: u64,
    zero: u64,
    discard: u64,
    share: u64,
    data_address: u64,
    data_length: u64,
    scratch_address: u64,
    scratch_length: u64,
) -> u8
    ensures number { result ≡ outcome_number (open_of (settings_by mem req zero discard share)
        (buffers_by data_address data_length scratch_address scratch_length)).outcome }
    ensures words { opens_over (open_of (settings_by mem req zero discard share)
        (buffers_by data_address data_length scratch_address scratch_length))
        settings.old blockers.old states.old vectors.old
        settings.new blockers.new states.new vectors.new }
{
    let align = Alignments {
        mem,
        req,
        zero,
        discard,
    };
    let s = Settings {
        align,
        bounce: share,
    };
    let b = buffers_of(data_address, data_length, scratch_address, scratch_length);
    outcome_number(open(settings, blockers, states, vectors, s, b))
}

// Open by drive profile (document 01: a drive row).
#[tactic(auto, unfolding(dock::specs::Dock::open_profile_of))]
#[unsafe(no_mangle)]
pub extern "C" fn dock_words_open_row(
    settings: &mut SettingRow,
    blockers: &mut BlockerRows,
    states: &mut StateRows,
    vectors: &mut VectorRows,
    row: usize,
    share: u64,
    data_address: u64,
    data_length: u64,
    scratch_address: u64,
    scratch_length: u64,
) -> u8
    ensures number { result ≡ outcome_number (open_profile_of row share
        (buffers_by data_address data_length scratch_address scratch_length)).outcome }
    ensures words { opens_over (open_profile_of row share
        (buffers_by data_address data_length scratch_address scratch_length))
        settings.old blockers.old states.old vectors.old
        settings.new blockers.new states.new vectors.new }
{
    let b = buffers_of(data_address, data_length, scratch_address, scratch_length);
    let profile = drive_profile(row);
    let outcome = open_by(settings, blockers, states, vectors, profile, share, b);
    outcome_number(outcome)
}

// Open by a row of a loaded drive table (document 02, N3), which stands in the place of the built-in rows.
#[unsafe(no_mangle)]
pub extern "C" fn dock_words_open_table(
    settings: &mut SettingRow,
    blockers: &mut BlockerRows,
    states: &mut StateRows,
    vectors: &mut VectorRows,
    table: &[u64; 257],
    row: usize,
    share: u64,
    data_address: u64,
    data_length: u64,
    scratch_address: u64,
    scratch_length: u64,
) -> u8
    ensures number { result ≡ outcome_number (open_by (profile_in (table_from table.now) row) share
        (buffers_by data_address data_length scratch_address scratch_length)).outcome }
    ensures words { opens_over (open_by (profile_in (table_from table.now) row) share
        (buffers_by data_address data_length scratch_address scratch_length))
        settings.old blockers.old states.old vectors.old
        settings.new blockers.new states.new vectors.new }
{
    let b = buffers_of(data_address, data_length, scratch_address, scratch_length);
    let profile = row_of(table, row);
    let outcome = open_by(settings, blockers, states, vectors, profile, share, b);
    outcome_number(outcome)
}

// Begin a read of the vector's length at `offset` into the data.
#[unsafe(no_mangle)]
pub extern "C" fn dock_words_begin_read(
    settings: &SettingRow,
    blockers: &mut BlockerRows,
    states: &mut StateRows,
    vectors: &mut VectorRows,
    offset: u64,
    vector: &VectorRow,
    data: &[u8],
    scratch: &mut [u8],
) -> Reply
    ensures dock { BeginsAs (begin_of
        (dock_of settings.now blockers.old states.old vectors.old)
        (read_of (store_at offset) (vector_from vector.now)) «data».now scratch.old)
        result (dock_of settings.now blockers.new states.new vectors.new) scratch.new }
    ensures words { same_three (is_admitted (begin_of
        (dock_of settings.now blockers.old states.old vectors.old)
        (read_of (store_at offset) (vector_from vector.now)) «data».now scratch.old).answer)
        blockers.old states.old vectors.old
        blockers.new states.new vectors.new }
{
    let asked = Asked::read(StoreOffset(offset), vector_of(vector));
    Reply::from(begin(settings, blockers, states, vectors, asked, data, scratch))
}

// Begin a write of the vector's bytes at `offset`.
#[unsafe(no_mangle)]
pub extern "C" fn dock_words_begin_write(
    settings: &SettingRow,
    blockers: &mut BlockerRows,
    states: &mut StateRows,
    vectors: &mut VectorRows,
    offset: u64,
    vector: &VectorRow,
    data: &[u8],
    scratch: &mut [u8],
) -> Reply
    ensures dock { BeginsAs (begin_of
        (dock_of settings.now blockers.old states.old vectors.old)
        (write_of (store_at offset) (vector_from vector.now)) «data».now scratch.old)
        result (dock_of settings.now blockers.new states.new vectors.new) scratch.new }
    ensures words { same_three (is_admitted (begin_of
        (dock_of settings.now blockers.old states.old vectors.old)
        (write_of (store_at offset) (vector_from vector.now)) «data».now scratch.old).answer)
        blockers.old states.old vectors.old
        blockers.new states.new vectors.new }
{
    let asked = Asked::write(StoreOffset(offset), vector_of(vector));
    Reply::from(begin(settings, blockers, states, vectors, asked, data, scratch))
}

// Begin zeroes, plain or allocating.
#[unsafe(no_mangle)]
pub extern "C" fn dock_words_begin_zeroes(
    settings: &SettingRow,
    blockers: &mut BlockerRows,
    states: &mut StateRows,
    vectors: &mut VectorRows,
    allocate: u8,
    offset: u64,
    length: u64,
    data: &[u8],
    scratch: &mut [u8],
) -> Reply
    ensures dock { BeginsAs (begin_of
        (dock_of settings.now blockers.old states.old vectors.old)
        (zeroes_of (flag_of allocate) (store_at offset) length) «data».now scratch.old)
        result (dock_of settings.now blockers.new states.new vectors.new) scratch.new }
    ensures words { same_three (is_admitted (begin_of
        (dock_of settings.now blockers.old states.old vectors.old)
        (zeroes_of (flag_of allocate) (store_at offset) length) «data».now scratch.old).answer)
        blockers.old states.old vectors.old
        blockers.new states.new vectors.new }
{
    let asked = Asked::zeroes(allocate != 0, StoreOffset(offset), length);
    Reply::from(begin(settings, blockers, states, vectors, asked, data, scratch))
}

// Begin a discard.
#[unsafe(no_mangle)]
pub extern "C" fn dock_words_begin_discard(
    settings: &SettingRow,
    blockers: &mut BlockerRows,
    states: &mut StateRows,
    vectors: &mut VectorRows,
    offset: u64,
    length: u64,
    data: &[u8],
    scratch: &mut [u8],
) -> Reply
    ensures dock { BeginsAs (begin_of
        (dock_of settings.now blockers.old states.old vectors.old)
        (discard_of (store_at offset) length) «data».now scratch.old)
        result (dock_of settings.now blockers.new states.new vectors.new) scratch.new }
    ensures words { same_three (is_admitted (begin_of
        (dock_of settings.now blockers.old states.old vectors.old)
        (discard_of (store_at offset) length) «data».now scratch.old).answer)
        blockers.old states.old vectors.old
        blockers.new states.new vectors.new }
{
    let asked = Asked::discard(StoreOffset(offset), length);
    Reply::from(begin(settings, blockers, states, vectors, asked, data, scratch))
}

// What the job in `slot` needs now.
#[unsafe(no_mangle)]
pub extern "C" fn dock_words_next(
    settings: &SettingRow,
    blockers: &BlockerRows,
    states: &StateRows,
    vectors: &VectorRows,
    slot: usize,
    data_len: usize,
    scratch_len: usize,
) -> Reply
    ensures { result ≡ reply_of (due_paper (next_of (dock_of settings.now blockers.now states.now
        vectors.now) slot data_len scratch_len)) }
{
    Reply::from(next(
        settings,
        blockers,
        states,
        vectors,
        slot,
        data_len,
        scratch_len,
    ))
}

// Where piece i of the request that is out in `slot` lies.
#[unsafe(no_mangle)]
pub extern "C" fn dock_words_piece(
    settings: &SettingRow,
    blockers: &BlockerRows,
    states: &StateRows,
    vectors: &VectorRows,
    slot: usize,
    i: usize,
    data_len: usize,
    scratch_len: usize,
) -> Reply
    ensures { result ≡ reply_of (piece_paper (piece_of (dock_of settings.now blockers.now states.now
        vectors.now) slot i data_len scratch_len)) }
{
    Reply::from(piece(
        settings,
        blockers,
        states,
        vectors,
        slot,
        i,
        data_len,
        scratch_len,
    ))
}

// Hand in the code of the request that is out in `slot`.
#[unsafe(no_mangle)]
pub extern "C" fn dock_words_tell(
    settings: &SettingRow,
    blockers: &mut BlockerRows,
    states: &mut StateRows,
    vectors: &VectorRows,
    slot: usize,
    code: u8,
    data: &mut [u8],
    scratch: &mut [u8],
) -> u8
    ensures dock { TellsAs (tell_of
        (dock_of settings.now blockers.old states.old vectors.now)
        slot code «data».old scratch.old)
        result (dock_of settings.now blockers.new states.new vectors.now)
        «data».new scratch.new }
    ensures words { same_two (is_done (tell_of
        (dock_of settings.now blockers.old states.old vectors.now)
        slot code «data».old scratch.old).outcome)
        blockers.old states.old blockers.new states.new }
{
    let outcome = tell(
        settings, blockers, states, vectors, slot, code, data, scratch,
    );
    outcome_number(outcome)
}

// Take the final answer; the slot is free again.
#[unsafe(no_mangle)]
pub extern "C" fn dock_words_collect(
    settings: &SettingRow,
    blockers: &BlockerRows,
    states: &mut StateRows,
    vectors: &mut VectorRows,
    slot: usize,
    data_len: usize,
    scratch_len: usize,
) -> u8
    ensures dock { CollectsAs (collect_of
        (dock_of settings.now blockers.now states.old vectors.old) slot data_len scratch_len)
        result (dock_of settings.now blockers.now states.new vectors.new) }
    ensures words { same_two (is_final (collect_of
        (dock_of settings.now blockers.now states.old vectors.old)
        slot data_len scratch_len).answer) states.old vectors.old states.new vectors.new }
{
    collected_number(collect(
        settings,
        blockers,
        states,
        vectors,
        slot,
        data_len,
        scratch_len,
    ))
}

// The planner: how many chunks.
#[unsafe(no_mangle)]
pub extern "C" fn dock_words_chunks(settings: &SettingRow, offset: u64, length: u64) -> Reply
    ensures { result ≡ reply_of (count_paper (count_of (settings_of settings.now) (store_at offset) length)) }
{
    let s = settings_of(settings);
    Reply::from(count_chunks(StoreOffset(offset), length, s))
}

// And chunk i.
#[unsafe(no_mangle)]
pub extern "C" fn dock_words_chunk(settings: &SettingRow, offset: u64, length: u64, i: u64) -> Reply
    ensures { result ≡ reply_of (planned_paper (planned_of (settings_of settings.now) (store_at offset) length i)) }
{
    let s = settings_of(settings);
    Reply::from(plan_chunk(StoreOffset(offset), length, s, i))
}
