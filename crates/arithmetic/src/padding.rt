// Direct or padded; the padded range of a request; the reads of a padded write (imago: readv and writev of storage/ext.rs).
ghost use Rattle.std.specs.Prelude.{◌≡◌, ◌+◌, ◌%◌, ◌<◌, ◌≤◌, eqb};
ghost use Rattle.arithmetic.specs.Rounding.{round_up};
ghost use Rattle.arithmetic.specs.Padding.{padded_of, padding_of, is_direct, transfer_of, reads_of};

use crate::offsets::{BufferOffset, Range, StoreOffset, is_multiple, round_down, round_up};
use crate::refusals::Refusal;
use crate::settings::Alignments;

// A padded range, which a bounce buffer holds from its start.
#[derive(Clone, Copy)]
pub struct Span {
    pub start: StoreOffset, // padded start
    pub end: StoreOffset, // padded end
    pub head: BufferOffset, // where the asked bytes start in the bounce buffer (h)
    pub length: u64, // padded length
    pub prefix: u64, // bytes to read for the head (H)
    pub suffix: u64, // bytes to read for the tail (T)
}

// How a request goes to the store: as it is, or through a bounce buffer.
#[derive(Clone, Copy)]
pub enum Transfer {
    Direct(Range),
    Bounced(Span),
}

// What a padded write reads before it writes, as lengths: of the first bytes, of the last.
#[derive(Clone, Copy)]
pub enum Reads {
    Nothing,
    Whole,
    Head(u64),
    Tail(u64),
    HeadThenTail(u64, u64),
}

// x rounded up to l, for x below l.
fn round_edge(x: u64, l: u64) -> u64
    requires { x < l }
    ensures { result ≡ round_up x l }
{
    if x == 0 { 0 } else { l }
}

// The padded range of n bytes at `at`, for a request alignment r and a length alignment l.
fn pad_to(at: u64, n: u64, r: u64, l: u64) -> Result<Span, Refusal>
    requires { (0 < r) × (0 < l) × (r ≤ l) × (l % r ≡ 0) }
    ensures { result ≡ padded_of r l at n }
{
    let Some(end) = at.checked_add(n) else {
        return Err(Refusal::Overflow);
    };
    let Some(rounded) = round_up(end, r) else {
        return Err(Refusal::Overflow);
    };
    let start = round_down(at, r);
    let Some(length) = round_up(rounded - start, l) else {
        return Err(Refusal::Overflow);
    };
    let Some(padded_end) = start.checked_add(length) else {
        return Err(Refusal::Overflow);
    };
    let Ok(head) = StoreOffset(at).in_buffer(StoreOffset(start)) else {
        return Err(Refusal::Overflow);
    };
    Ok(Span {
        start: StoreOffset(start),
        end: StoreOffset(padded_end),
        head,
        length,
        prefix: round_edge(at - start, l),
        suffix: round_edge(padded_end - end, l),
    })
}

// The padded range of `length` bytes at `offset`: start down to R, end up to R, the length between up to L.
#[tactic(auto, unfolding(crate::specs::Padding::padding_of))]
pub fn pad(offset: StoreOffset, length: u64, align: Alignments) -> Result<Span, Refusal>
    ensures { result ≡ padding_of align offset length }
{
    if !align.is_fit() {
        return Err(Refusal::Unfit);
    }
    pad_to(offset.0, length, align.req, align.length_align())
}

// Whether offset and length are multiples of R, for a vector that is aligned. R is no `NonZero`: each caller has tested the alignments
// by then, and would only make one of it to ask for the number again.
#[tactic(auto, unfolding(crate::specs::Padding::is_direct))]
fn is_direct(at: u64, length: u64, r: u64, aligned: bool) -> bool
    requires { 0 < r }
    ensures { result ≡ is_direct r at length aligned }
{
    let starts = is_multiple(at, r);
    let ends = is_multiple(length, r);
    aligned & starts & ends
}

// Direct or padded, for a vector of `length` bytes that is or is not aligned.
#[tactic(auto, unfolding(crate::specs::Padding::transfer_of))]
pub fn plan_transfer(
    offset: StoreOffset,
    length: u64,
    aligned: bool,
    align: Alignments,
) -> Result<Transfer, Refusal>
    ensures { result ≡ transfer_of align offset length aligned }
{
    if !align.is_fit() {
        return Err(Refusal::Unfit);
    }
    let at = offset.0;
    let Some(end) = at.checked_add(length) else {
        return Err(Refusal::Overflow);
    };
    let r = align.req;
    if is_direct(at, length, r, aligned) {
        return Ok(Transfer::Direct(Range {
            start: offset,
            end: StoreOffset(end),
        }));
    }
    let span = pad_to(at, length, r, align.length_align())?;
    Ok(Transfer::Bounced(span))
}

impl Span {
    // Whether head and tail are all of it.
    fn is_edges(self) -> bool
        ensures { result ≡ eqb (self.prefix + self.suffix) self.length }
    {
        if self.length < self.prefix {
            return false;
        }
        self.suffix == self.length - self.prefix
    }

    // What a padded write of this range reads first.
    #[tactic(auto, unfolding(crate::specs::Padding::reads_of))]
    pub fn reads(self) -> Reads
        ensures { result ≡ reads_of self }
    {
        if self.is_edges() {
            return Reads::Whole;
        }
        if self.prefix == 0 {
            if self.suffix == 0 {
                return Reads::Nothing;
            }
            return Reads::Tail(self.suffix);
        }
        if self.suffix == 0 {
            return Reads::Head(self.prefix);
        }
        Reads::HeadThenTail(self.prefix, self.suffix)
    }
}
