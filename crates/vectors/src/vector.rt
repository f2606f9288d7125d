// An I/O vector: up to 16 segments of the lent data, by value.
ghost use Rattle.std.specs.Prelude.{◌≡◌, [], ◌∷◌, ◌++◌, ◌≤◌, eqb, take, drop};
ghost use Rattle.vectors.specs.Vectors.{vector_of, segments_of, lies_in, is_valid, touches, glued};
ghost use Rattle.vectors.specs.Vectors.{push_of, insert_of, append_of, vector_after};
ghost use Rattle.vectors.specs.Joining.{Room, Joins, last_touches, Lengthens, Gluing, GluesAll, glued_of, vector_if};

use crate::segments;
use arithmetic::refusals::Refusal;

// A run of bytes of the lent data (document 01: a piece of a vector). The default is empty.
#[derive(Clone, Copy, Default)]
pub struct Segment {
    pub start: usize,
    pub length: usize,
}

// An array with a count beside it: there is no heap, and words have any count (`vector_from`), which `is_valid` refuses past 16.
#[derive(Clone, Copy)]
pub struct IoVector {
    pub segments: [Segment; 16],
    pub count: usize,
    pub total: u64,
}

// The two parts of a split, and how many segments the walk to it looked at.
#[derive(Clone, Copy)]
pub struct Halves {
    pub head: IoVector,
    pub tail: IoVector,
    pub looked: usize,
}

// The tail of a split alone, and how many segments the walk to it looked at.
#[derive(Clone, Copy)]
pub struct Tail {
    pub vector: IoVector,
    pub looked: usize,
}

// A place between two bytes of a vector: `inside` bytes into segment `index`.
#[derive(Clone, Copy)]
pub struct SplitPosition {
    pub index: usize,
    pub inside: usize,
}

// Where a split falls: where the head ends, and where the tail starts; and how many segments the walk looked at.
#[derive(Clone, Copy)]
pub struct Split {
    pub head: SplitPosition,
    pub tail: SplitPosition,
    pub looked: usize,
}

pub(crate) const MAX_COUNT: usize = 16;

pub(crate) const MAX_TOTAL: u64 = 1048576;

impl Segment {
    // Whether it is not empty, and inside data of that length.
    #[tactic(auto, unfolding(crate::specs::Vectors::lies_in))]
    pub(crate) fn lies_in(self, data_len: usize) -> bool
        ensures { result ≡ lies_in data_len self }
    {
        self.start <= data_len && (0 < self.length) && self.length <= data_len - self.start
    }

    // Whether `next` starts where this one ends; by the difference, as the sum may pass 2^64 - 1.
    #[tactic(auto, unfolding(crate::specs::Vectors::touches))]
    fn touches(self, next: Segment) -> bool
        ensures { result ≡ touches self next }
    {
        self.start <= next.start && next.start - self.start == self.length
    }
}

impl IoVector {
    // The vector of no segments.
    pub fn new() -> IoVector
        ensures { result ≡ vector_of [] }
    {
        let none = Segment {
            start: 0,
            length: 0,
        };
        IoVector {
            segments: [none; 16],
            count: 0,
            total: 0,
        }
    }

    // How many bytes the segments hold.
    pub fn len(self) -> u64
        ensures { result ≡ self.total }
    {
        self.total
    }

    // How many segments are in use.
    pub fn buffer_count(self) -> usize
        ensures { result ≡ self.count }
    {
        self.count
    }

    pub fn is_empty(self) -> bool
        ensures { result ≡ eqb self.total 0 }
    {
        self.total == 0
    }

    // Whether this is a vector over data of that length.
    pub fn is_valid(self, data_len: usize) -> bool
        ensures { result ≡ is_valid data_len self }
    {
        segments::is_valid(&self, data_len)
    }

    // One segment more at the end.
    pub(crate) fn put_last(&mut self, segment: Segment)
        requires { Room self.old segment }
        ensures { self.new ≡ vector_of (segments_of self.old ++ (segment ∷ [])) }
    {
        self.segments[self.count] = segment;
        self.count += 1;
        self.total += segment.length as u64;
    }

    // n segments of `other` more, from `start` on, as they are: nothing is looked at where the two meet. This and what glues
    // change the vector in place, and borrow the other: by value each call would copy 272 bytes.
    pub(crate) fn join(&mut self, other: &IoVector, start: usize, n: usize)
        requires { Joins self.old other.now start n }
        ensures { self.new ≡ vector_of (segments_of self.old ++ take n (drop start (segments_of other.now))) }
    {
        for segment in &other.segments[start..start + n] {
            self.put_last(*segment);
        }
    }

    // Whether the last segment ends where `next` starts.
    fn last_touches(&self, next: Segment) -> bool
        requires { self.now.count ≤ 16 }
        ensures { result ≡ last_touches (segments_of self.now) next }
    {
        match &self.segments[..self.count] {
            [.., last] => last.touches(next),
            [] => false,
        }
    }

    // The last segment longer by `next`, which it touches.
    fn lengthen(&mut self, next: Segment)
        requires { Lengthens self.old next }
        ensures { self.new ≡ vector_of (glued (segments_of self.old) (next ∷ [])) }
    {
        self.segments[self.count - 1].length += next.length;
        self.total += next.length as u64;
    }

    // `segment` at the end, as part of the last segment where they touch. It does not fit where it is a 17th.
    fn glue(&mut self, segment: Segment) -> Option<()>
        requires { Gluing self.old segment.length }
        ensures { vector_if result self.new ≡ glued_of self.old (segment ∷ []) }
    {
        if self.last_touches(segment) {
            self.lengthen(segment);
            return Some(());
        }
        if self.count == MAX_COUNT {
            return None;
        }
        self.put_last(segment);
        Some(())
    }

    // n segments of `other` at the end, from `start` on: the first is glued. They do not fit where one is a 17th.
    fn glue_all(&mut self, other: &IoVector, start: usize, n: usize) -> Option<()>
        requires { GluesAll self.old other.now start n }
        ensures { vector_if result self.new ≡ glued_of self.old (take n (drop start (segments_of other.now))) }
    {
        if n == 0 {
            return Some(());
        }
        self.glue(other.segments[start])?;
        if MAX_COUNT - self.count < n - 1 {
            return None;
        }
        self.join(other, start + 1, n - 1);
        Some(())
    }

    // With `segment` at the end: where it starts where the last one ends, that one is longer by it. Refused where the
    // vector is none over the data, or would then be none, or the segment lies outside or is empty.
    pub fn push(self, segment: Segment, data_len: usize) -> Result<IoVector, Refusal>
        ensures { result ≡ push_of data_len self segment }
    {
        self.insert(self.count, segment, data_len)
    }

    // With `segment` before the one at `index`, which is at most the count; on either side joined where they touch.
    // Refused as push is.
    pub fn insert(
        self,
        index: usize,
        segment: Segment,
        data_len: usize,
    ) -> Result<IoVector, Refusal>
        ensures { result ≡ insert_of data_len self index segment }
    {
        let n = self.count;
        let is_asked = (index <= n)
            & segments::is_valid(&self, data_len)
            & segment.lies_in(data_len);
        if !is_asked {
            return Err(Refusal::Segment);
        }
        if MAX_TOTAL - self.total < segment.length as u64 {
            return Err(Refusal::Segment);
        }
        let mut whole = IoVector::new();
        whole.join(&self, 0, index);
        whole.glue(segment).ok_or(Refusal::Segment)?;
        whole
            .glue_all(&self, index, n - index)
            .ok_or(Refusal::Segment)?;
        Ok(whole)
    }

    // With the segments of `other` at the end, the first of them as in push. Refused as push is, and where `other` is no
    // vector over the data.
    pub fn append(self, other: IoVector, data_len: usize) -> Result<IoVector, Refusal>
        ensures { result ≡ append_of data_len self other }
    {
        let is_asked = segments::is_valid(&other, data_len) & segments::is_valid(&self, data_len);
        if !is_asked {
            return Err(Refusal::Segment);
        }
        if MAX_TOTAL - self.total < other.total {
            return Err(Refusal::Segment);
        }
        let mut whole = IoVector::new();
        whole.join(&self, 0, self.count);
        whole
            .glue_all(&other, 0, other.count)
            .ok_or(Refusal::Segment)?;
        Ok(whole)
    }

    // What the caller of a push, an insert or an append of this vector has: of a refused one this vector.
    pub fn vector_after(self, edited: Result<IoVector, Refusal>) -> IoVector
        ensures { result ≡ vector_after self edited }
    {
        edited.unwrap_or(self)
    }
}
