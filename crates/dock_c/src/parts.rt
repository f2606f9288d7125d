// Vectors and blockers alone, for a host that builds its vectors by calls, and for comparing them with imago's.
ghost use Rattle.std.specs.Prelude.{◌≡◌, length};
ghost use Rattle.arithmetic.specs.Offsets.{range_of};
ghost use Rattle.vectors.specs.Vectors.{segment, push_of, insert_of, append_of, split_of, split_tail_of, copies, bytes_of, scatter_of};
ghost use Rattle.vectors.specs.Vectors.{segments_of};
ghost use Rattle.vectors.specs.Vectors.{is_valid, fill_of, alignment_of};
ghost use Rattle.blockers.specs.Blockers.{entered_of, left_of, waits_of, strength};
ghost use Rattle.dock_words.specs.View.{flag_of, flag_word, blockers_of};
ghost use Rattle.vectors.specs.Words.{vector_from};
ghost use Rattle.dock_c.specs.Replies.{reply_of, alignment_paper, EditsAs, SplitsAs, SplitsTailAs, MovesAs, BlocksAs};

use crate::replies::Reply;
use arithmetic::offsets::{Range, StoreOffset};
use arithmetic::refusals::{Refusal, outcome_number};
use arithmetic::settings::{Alignments, Lent};
use blockers::strength;
use dock_words::arrays::{BlockerRows, VectorRow, enter, leave, put_vector_of, vector_of, waits};
use vectors::vector::{IoVector, Segment};

// What an edit made of the vector in the words goes back into them; where it is refused they stay.
fn put_edited(vector: &mut VectorRow, edited: Result<IoVector, Refusal>) -> u8
    ensures { EditsAs edited vector.old result vector.new }
{
    match edited {
        Ok(v) => {
            put_vector_of(vector, v);
            0
        }
        Err(refusal) => refusal.number(),
    }
}

// The vector with a segment at its end; one that starts where the last ends makes that longer.
#[unsafe(no_mangle)]
pub extern "C" fn dock_words_vector_push(
    vector: &mut VectorRow,
    start: usize,
    length: usize,
    data_len: usize,
) -> u8
    ensures { EditsAs (push_of data_len (vector_from vector.old) (segment start length))
        vector.old result vector.new }
{
    let v = vector_of(vector);
    put_edited(vector, v.push(Segment { start, length }, data_len))
}

// The vector with a segment before the one at `index`, joined to either neighbour that it touches.
#[unsafe(no_mangle)]
pub extern "C" fn dock_words_vector_insert(
    vector: &mut VectorRow,
    index: usize,
    start: usize,
    length: usize,
    data_len: usize,
) -> u8
    ensures { EditsAs (insert_of data_len (vector_from vector.old) index (segment start length))
        vector.old result vector.new }
{
    let v = vector_of(vector);
    put_edited(vector, v.insert(index, Segment { start, length }, data_len))
}

// The bytes of the vector from `mid` on, and how many segments were looked at to find where.
#[unsafe(no_mangle)]
pub extern "C" fn dock_words_vector_split_tail_at(
    vector: &mut VectorRow,
    mid: u64,
    data_len: usize,
) -> Reply
    ensures { SplitsTailAs (split_tail_of data_len (vector_from vector.old) mid)
        vector.old result vector.new }
{
    let v = vector_of(vector);
    match v.split_tail_at(mid, data_len) {
        Ok(tail) => {
            put_vector_of(vector, tail.vector);
            Reply::from(Ok(tail.looked))
        }
        Err(refusal) => Reply::from(refusal),
    }
}

// The vector with the segments of `other` at its end, the first of them as in a push.
#[unsafe(no_mangle)]
pub extern "C" fn dock_words_vector_append(
    vector: &mut VectorRow,
    other: &VectorRow,
    data_len: usize,
) -> u8
    ensures { EditsAs (append_of data_len (vector_from vector.old) (vector_from other.now))
        vector.old result vector.new }
{
    let v = vector_of(vector);
    let w = vector_of(other);
    put_edited(vector, v.append(w, data_len))
}

// The first `mid` bytes of the vector, and the rest in `tail`; where it is refused both stay; and how many segments were looked at.
#[unsafe(no_mangle)]
pub extern "C" fn dock_words_vector_split_at(
    vector: &mut VectorRow,
    tail: &mut VectorRow,
    mid: u64,
    data_len: usize,
) -> Reply
    ensures { SplitsAs (split_of data_len (vector_from vector.old) mid)
        vector.old tail.old result vector.new tail.new }
{
    let v = vector_of(vector);
    match v.split_at(mid, data_len) {
        Ok(halves) => {
            put_vector_of(vector, halves.head);
            put_vector_of(tail, halves.tail);
            Reply::from(Ok(halves.looked))
        }
        Err(refusal) => Reply::from(refusal),
    }
}

// `slice` becomes the vector's bytes.
#[unsafe(no_mangle)]
pub extern "C" fn dock_words_vector_copy_into_slice(
    vector: &VectorRow,
    data: &[u8],
    slice: &mut [u8],
) -> u8
    ensures { MovesAs (copies «data».now (vector_from vector.now) (length slice.old))
        (bytes_of «data».now (segments_of (vector_from vector.now)))
        slice.old result slice.new }
{
    let v = vector_of(vector);
    let outcome = v.copy_into_slice(data, slice);
    outcome_number(outcome)
}

// The bytes of `slice` go into the vector's segments.
#[unsafe(no_mangle)]
pub extern "C" fn dock_words_vector_copy_from_slice(
    vector: &VectorRow,
    data: &mut [u8],
    slice: &[u8],
) -> u8
    ensures { MovesAs (copies «data».old (vector_from vector.now) (length slice.now))
        (scatter_of «data».old (segments_of (vector_from vector.now)) slice.now)
        «data».old result «data».new }
{
    let v = vector_of(vector);
    let outcome = v.copy_from_slice(data, slice);
    outcome_number(outcome)
}

// Every byte of the vector's segments becomes `value`.
#[unsafe(no_mangle)]
pub extern "C" fn dock_words_vector_fill(vector: &VectorRow, data: &mut [u8], value: u8) -> u8
    ensures { MovesAs (is_valid (length «data».old) (vector_from vector.now))
        (fill_of «data».old (segments_of (vector_from vector.now)) value)
        «data».old result «data».new }
{
    let v = vector_of(vector);
    let outcome = v.fill(data, value);
    outcome_number(outcome)
}

// Whether direct requests can use the vector's segments, over data at that address.
#[unsafe(no_mangle)]
pub extern "C" fn dock_words_vector_is_aligned(
    vector: &VectorRow,
    mem: u64,
    req: u64,
    zero: u64,
    discard: u64,
    address: u64,
    length: u64,
) -> Reply
    ensures { result ≡ reply_of (alignment_paper (alignment_of (record { mem = mem; req = req; zero = zero; discard = discard })
        (record { address = address; length = length }) (vector_from vector.now))) }
{
    let v = vector_of(vector);
    let align = Alignments {
        mem,
        req,
        zero,
        discard,
    };
    Reply::from(v.is_aligned(align, Lent { address, length }))
}

// Enter a blocker over the store's bytes from `start` up to `end`, strong or weak.
#[unsafe(no_mangle)]
pub extern "C" fn dock_words_blockers_enter(
    blockers: &mut BlockerRows,
    strong: u8,
    slot: usize,
    start: u64,
    end: u64,
) -> u8
    ensures { BlocksAs (entered_of (strength (flag_of strong)) slot (range_of start end) (blockers_of blockers.old))
        result blockers.old blockers.new }
{
    let range = Range {
        start: StoreOffset(start),
        end: StoreOffset(end),
    };
    let kind = strength(strong != 0);
    let outcome = enter(blockers, kind, slot, range);
    outcome_number(outcome)
}

// The slot's blocker leaves.
#[unsafe(no_mangle)]
pub extern "C" fn dock_words_blockers_leave(blockers: &mut BlockerRows, slot: usize) -> u8
    ensures { BlocksAs (left_of slot (blockers_of blockers.old))
        result blockers.old blockers.new }
{
    let outcome = leave(blockers, slot);
    outcome_number(outcome)
}

// 1 where the slot's blocker waits, 0 where not.
#[unsafe(no_mangle)]
pub extern "C" fn dock_words_blockers_wait(blockers: &BlockerRows, slot: usize) -> u8
    ensures { result ≡ flag_word (waits_of slot (blockers_of blockers.now)) }
{
    u8::from(waits(blockers, slot))
}
