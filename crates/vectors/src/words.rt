// A vector in 34 words (count, total, then start and length of each of the 16 segments), tested and copied where it lies.
ghost use Rattle.std.specs.Prelude.{◌≡◌, length, get_or};
ghost use Rattle.vectors.specs.Vectors.{none};
ghost use Rattle.vectors.specs.Words.{vector_from, vector_words};

use crate::segments::Segments;
use crate::vector::{IoVector, MAX_COUNT, Segment};

// How many segments are in use.
#[tactic(auto, unfolding(crate::specs::Words::vector_from))]
pub fn buffer_count(words: &[u64; 34]) -> usize
    ensures { result ≡ (vector_from words.now).count }
{
    words[0] as usize
}

// How many bytes the segments hold.
#[tactic(auto, unfolding(crate::specs::Words::vector_from))]
pub fn len(words: &[u64; 34]) -> u64
    ensures { result ≡ (vector_from words.now).total }
{
    words[1]
}

// Segment i: past the 16 an empty one.
pub fn segment_at(words: &[u64; 34], i: usize) -> Segment
    ensures { result ≡ get_or (vector_from words.now).segments i none }
{
    if i < MAX_COUNT {
        let start = words[2 + 2 * i] as usize;
        let length = words[3 + 2 * i] as usize;
        return Segment { start, length };
    }
    Segment::default()
}

impl Segments for [u64; 34] {
    ghost vector = { vector_from };

    #[tactic(auto, using(crate::specs::WordLaws::vector_wide))]
    fn buffer_count(&self) -> usize {
        buffer_count(self)
    }

    fn total(&self) -> u64 {
        len(self)
    }

    fn segment_at(&self, i: usize) -> Segment {
        segment_at(self, i)
    }
}

// The vector in the words. This and its inverse are functions and no `From`: the words are read and written where they lie.
pub fn get_vector(words: &[u64; 34]) -> IoVector
    ensures { result ≡ vector_from words.now }
{
    IoVector {
        segments: std::array::from_fn(|i| segment_at(words, i)),
        count: buffer_count(words),
        total: len(words),
    }
}

// Write a vector over all the words.
pub fn put_vector(words: &mut [u64; 34], v: IoVector)
    ensures { words.new ≡ vector_words v }
{
    words[0] = v.count as u64;
    words[1] = v.total;
    for (i, s) in v.segments.iter().enumerate() {
        words[2 + 2 * i] = s.start as u64;
        words[3 + 2 * i] = s.length as u64;
    }
}
