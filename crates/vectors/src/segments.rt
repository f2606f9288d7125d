// Where a vector stands: as an IoVector, or in 34 words. What both can do is written once, over what a place tells of its vector.
ghost use Rattle.std.specs.Prelude.{◌≡◌, length, get_or};
ghost use Rattle.vectors.specs.declared.vector.IoVector.{IoVector};
ghost use Rattle.vectors.specs.Vectors.{none, is_valid};

use crate::vector::{IoVector, MAX_COUNT, MAX_TOTAL, Segment};

// A place of a vector. `vector` is the vector that stands there.
pub trait Segments {
    ghost vector: { Self → IoVector };

    // How many segments are in use: a count past 16 is no vector's, and stands for all 16.
    fn buffer_count(&self) -> usize
        ensures count { result ≡ (vector self.now).count }
        ensures wide { length (vector self.now).segments ≡ 16 };

    // How many bytes the segments hold.
    fn total(&self) -> u64
        ensures { result ≡ (vector self.now).total };

    // Segment i: past the 16 an empty one.
    fn segment_at(&self, i: usize) -> Segment
        ensures { result ≡ get_or (vector self.now).segments i none };
}

// Whether this is a vector over data of that length. The sum stays at most MAX_TOTAL.
#[tactic(auto, using(crate::proofs::Pass::check_long, crate::proofs::Pass::check_end))]
pub fn is_valid<V: Segments>(v: &V, data_len: usize) -> bool
    ensures { result ≡ is_valid data_len (V.vector v.now) }
{
    let n = v.buffer_count();
    if MAX_COUNT < n {
        return false;
    }
    let mut sum = 0u64;
    for i in 0..n {
        let p = v.segment_at(i);
        if !p.lies_in(data_len) {
            return false;
        }
        if MAX_TOTAL - sum < p.length as u64 {
            return false;
        }
        sum += p.length as u64;
    }
    v.total() == sum
}

impl Segments for IoVector {
    ghost vector = { λ v. v };

    fn buffer_count(&self) -> usize {
        self.count
    }

    fn total(&self) -> u64 {
        self.total
    }

    fn segment_at(&self, i: usize) -> Segment {
        self.segments.get(i).copied().unwrap_or_default()
    }
}
