// Whether a vector's segments lie as direct requests need them.
ghost use Rattle.std.specs.Prelude.{◌≡◌};
ghost use Rattle.vectors.specs.Vectors.{segments_of, is_aligned_at, lies_aligned, alignment_of};

use crate::overlap::used_count;
use crate::segments::{Segments, is_valid};
use crate::vector::{IoVector, Segment};
use arithmetic::offsets::{LARGEST, is_multiple};
use arithmetic::refusals::Refusal;
use arithmetic::settings::{Alignments, Lent};

impl Segment {
    // Whether its address, over data at `address`, fits 64 bits and is a multiple of `mem`, and its length one of `len`.
    #[tactic(auto, unfolding(crate::specs::Vectors::is_aligned_at, arithmetic::specs::Rounding::fits))]
    fn is_aligned_at(self, address: u64, mem: u64, len: u64) -> bool
        ensures { result ≡ is_aligned_at address mem len self }
    {
        self.start as u64 <= LARGEST - address
            && is_multiple(address + self.start as u64, mem)
            && is_multiple(self.length as u64, len)
    }
}

// Whether every segment's address, over data at `address`, fits 64 bits and is a multiple of `mem`, and its length one of `len`.
pub fn lies_aligned<V: Segments>(v: &V, address: u64, mem: u64, len: u64) -> bool
    ensures { result ≡ lies_aligned address mem len (segments_of (V.vector v.now)) }
{
    (0..used_count(v)).all(|i| v.segment_at(i).is_aligned_at(address, mem, len))
}

// Whether direct requests can use the segments. Refused: 201 for unfit alignments, then 205 for data that ends past 2^64 - 1,
// then 202 for no vector over the data.
#[tactic(auto, using(crate::specs::AlignmentLaws::alignment_fit), unfolding(crate::specs::Vectors::alignment_of))]
pub fn is_aligned<V: Segments>(v: &V, align: Alignments, data: Lent) -> Result<bool, Refusal>
    ensures { result ≡ alignment_of align «data» (V.vector v.now) }
{
    if !align.is_fit() {
        return Err(Refusal::Unfit);
    }
    if LARGEST - data.address < data.length {
        return Err(Refusal::Buffer);
    }
    if !is_valid(v, data.length as usize) {
        return Err(Refusal::Segment);
    }
    if (align.mem == 1) & (align.req == 1) {
        return Ok(true);
    }
    Ok(lies_aligned(v, data.address, align.mem, align.length_align()))
}

impl IoVector {
    // Whether direct requests can use the segments, refused as above.
    pub fn is_aligned(self, align: Alignments, data: Lent) -> Result<bool, Refusal>
        ensures { result ≡ alignment_of align «data» self }
    {
        is_aligned(&self, align, data)
    }
}
