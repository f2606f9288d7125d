// Which segments share a byte: the test of refusal 203. Total for any value of the types.
ghost use Rattle.std.specs.Prelude.{◌≡◌, length, drop};
ghost use Rattle.vectors.specs.Vectors.{segments_of, shares, any_segment, overlap_of, self_overlap_of};

use crate::segments::Segments;
use crate::vector::{IoVector, MAX_COUNT, Segment};

impl Segment {
    // The start of one lies in the other, and neither is empty. No end is computed, which may not fit.
    #[tactic(auto, unfolding(crate::specs::Vectors::shares))]
    pub(crate) fn shares(self, other: Segment) -> bool
        ensures { result ≡ shares self other }
    {
        if self.start <= other.start {
            return (other.start - self.start < self.length) & (0 < other.length);
        }
        (self.start - other.start < other.length) & (0 < self.length)
    }
}

// How many of the segments are in use: of a count past 16, all.
pub(crate) fn used_count<V: Segments>(v: &V) -> usize
    ensures { result ≡ length (segments_of (V.vector v.now)) }
{
    v.buffer_count().min(MAX_COUNT)
}

// Whether `segment` shares a byte with one of the segments from `start` on.
fn shares_from<V: Segments>(v: &V, start: usize, segment: Segment) -> bool
    ensures { result ≡ any_segment (shares segment) (drop start (segments_of (V.vector v.now))) }
{
    (start..used_count(v)).any(|i| segment.shares(v.segment_at(i)))
}

// Whether the vectors share a byte.
pub fn overlaps<V: Segments, W: Segments>(v: &V, w: &W) -> bool
    ensures { result ≡ overlap_of (segments_of (V.vector v.now)) (segments_of (W.vector w.now)) }
{
    (0..used_count(v)).any(|i| shares_from(w, 0, v.segment_at(i)))
}

// Whether two of the segments share a byte.
pub fn overlaps_itself<V: Segments>(v: &V) -> bool
    ensures { result ≡ self_overlap_of (segments_of (V.vector v.now)) }
{
    (0..used_count(v)).any(|i| shares_from(v, i + 1, v.segment_at(i)))
}

impl IoVector {
    // Whether the vectors share a byte.
    pub fn overlaps(self, other: IoVector) -> bool
        ensures { result ≡ overlap_of (segments_of self) (segments_of other) }
    {
        overlaps(&self, &other)
    }

    // Whether two of the segments share a byte.
    pub fn overlaps_itself(self) -> bool
        ensures { result ≡ self_overlap_of (segments_of self) }
    {
        overlaps_itself(&self)
    }
}
