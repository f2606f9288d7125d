// Cuts of zero and discard jobs, and the chunks of write_full_zeroes (imago: write_efficient_zeroes, discard, write_full_zeroes of
// storage/ext.rs).
ghost use Rattle.std.specs.Prelude.{true, ltb, ◌≡◌, ◌<◌};
ghost use Rattle.arithmetic.specs.Zeroes.{cut_fits, cut_of, zero_cut_of, discard_cut_of, chunk_length, chunk_of};

use crate::offsets::{LARGEST, Range, StoreOffset, remainder, round_down};
use crate::refusals::Refusal;
use crate::settings::{Alignments, Settings};

// A range with its aligned middle: head, middle and tail are adjacent; head and tail may be empty.
#[derive(Clone, Copy)]
pub struct Cut {
    pub head: Range,
    pub middle: Range,
    pub tail: Range,
}

// What a zero job does: nothing, one write over the whole, or a zero request in the middle and writes beside it.
#[derive(Clone, Copy)]
pub enum ZeroCut {
    Nothing,
    Whole(Range),
    Split(Cut),
}

// Whether the sums of a cut fit.
fn cut_fits(at: u64, length: u64, z: u64) -> bool
    requires { 0 < z }
    ensures { result ≡ cut_fits z at length }
{
    let room = LARGEST - at;
    (length <= room) & (z - 1 <= room)
}

// The cut of a range whose sums fit.
#[tactic(auto, unfolding(crate::specs::Zeroes::cut_of, crate::specs::Rounding::round_up))]
fn cut_at(at: u64, length: u64, z: u64) -> Cut
    requires { (0 < z) × (cut_fits z at length ≡ true) }
    ensures { result ≡ cut_of z at length }
{
    let last = at + (z - 1);
    let asked_end = at + length;
    let start = StoreOffset(round_down(last, z));
    let end = StoreOffset(round_down(asked_end, z));
    Cut {
        head: Range {
            start: StoreOffset(at),
            end: start,
        },
        middle: Range { start, end },
        tail: Range {
            start: end,
            end: StoreOffset(asked_end),
        },
    }
}

// Whether the range has a byte.
fn has_bytes(r: Range) -> bool
    ensures { result ≡ ltb r.start.0 r.end.0 }
{
    r.start.0 < r.end.0
}

// What write_zeroes and write_allocated_zeroes do with `length` bytes at `offset`.
#[tactic(auto, unfolding(crate::specs::Zeroes::cut_of, crate::specs::Zeroes::has_middle, crate::specs::Zeroes::zero_cut_of))]
pub fn zero_cut(offset: StoreOffset, length: u64, align: Alignments) -> Result<ZeroCut, Refusal>
    ensures { result ≡ zero_cut_of align offset length }
{
    if !align.is_fit() {
        return Err(Refusal::Unfit);
    }
    if length == 0 {
        return Ok(ZeroCut::Nothing);
    }
    let at = offset.0;
    let z = align.zero;
    if !cut_fits(at, length, z) {
        return Err(Refusal::Overflow);
    }
    let c = cut_at(at, length, z);
    if !has_bytes(c.middle) {
        let end = at + length;
        return Ok(ZeroCut::Whole(Range {
            start: offset,
            end: StoreOffset(end),
        }));
    }
    Ok(ZeroCut::Split(c))
}

// What discard does with `length` bytes at `offset`.
#[tactic(auto, unfolding(crate::specs::Zeroes::cut_of, crate::specs::Zeroes::discard_cut_of, crate::specs::Zeroes::has_middle))]
pub fn discard_cut(
    offset: StoreOffset,
    length: u64,
    align: Alignments,
) -> Result<Option<Range>, Refusal>
    ensures { result ≡ discard_cut_of align offset length }
{
    if !align.is_fit() {
        return Err(Refusal::Unfit);
    }
    let at = offset.0;
    let d = align.discard;
    if !cut_fits(at, length, d) {
        return Err(Refusal::Overflow);
    }
    let middle = cut_at(at, length, d).middle;
    if !has_bytes(middle) {
        return Ok(None);
    }
    Ok(Some(middle))
}

// The length of the first chunk of n bytes at `at`. R is no `NonZero`, as in `is_direct` of padding.
#[tactic(auto, unfolding(crate::specs::Zeroes::chunk_length, crate::specs::Rounding::is_multiple))]
fn chunk_length(at: u64, n: u64, r: u64, bounce: u64) -> u64
    requires { 0 < r }
    ensures { result ≡ chunk_length r bounce at n }
{
    let off = remainder(at, r);
    if off == 0 {
        return n.min(bounce);
    }
    n.min(r - off)
}

// The first chunk of a range that write_full_zeroes still has to write.
#[tactic(auto, unfolding(crate::specs::Zeroes::chunk_of))]
pub fn next_chunk(range: Range, settings: Settings) -> Result<Option<Range>, Refusal>
    ensures { result ≡ chunk_of settings range }
{
    if !settings.is_fit() {
        return Err(Refusal::Unfit);
    }
    if !has_bytes(range) {
        return Ok(None);
    }
    let align = settings.align;
    let start = range.start;
    let end = range.end;
    let n = chunk_length(start.0, end.0 - start.0, align.req, settings.bounce);
    let chunk_end = start.0 + n;
    Ok(Some(Range {
        start,
        end: StoreOffset(chunk_end),
    }))
}
