// Splits of a vector at a byte.
ghost use Rattle.std.specs.Prelude.{◌≡◌};
ghost use Rattle.vectors.specs.Vectors.{vector_of, segments_of, split_of, split_tail_of, halves_after, tail_after};
ghost use Rattle.vectors.specs.Positions.{position, meeting, split_at, IsVector, head_at, tail_at, Cut};

use crate::segments::is_valid;
use crate::vector::{Halves, IoVector, Segment, Split, SplitPosition, Tail};
use arithmetic::refusals::Refusal;

// Head and tail meet `inside` bytes into segment `index`.
fn meet(index: usize, inside: usize, looked: usize) -> Split
    ensures { result ≡ meeting (position index inside) looked }
{
    let place = SplitPosition { index, inside };
    Split {
        head: place,
        tail: place,
        looked,
    }
}

impl IoVector {
    // The first `mid` bytes, and the rest; and how many segments were looked at to find where. Refused for no vector over the data.
    pub fn split_at(self, mid: u64, data_len: usize) -> Result<Halves, Refusal>
        ensures { result ≡ split_of data_len self mid }
    {
        if !is_valid(&self, data_len) {
            return Err(Refusal::Segment);
        }
        let split = self.do_split_at(mid);
        Ok(Halves {
            head: self.head_to(split.head),
            tail: self.tail_from(split.tail),
            looked: split.looked,
        })
    }

    // The bytes from `mid` on, and that number. Refused as split_at is.
    pub fn split_tail_at(self, mid: u64, data_len: usize) -> Result<Tail, Refusal>
        ensures { result ≡ split_tail_of data_len self mid }
    {
        if !is_valid(&self, data_len) {
            return Err(Refusal::Segment);
        }
        let split = self.do_split_at(mid);
        Ok(Tail {
            vector: self.tail_from(split.tail),
            looked: split.looked,
        })
    }

    // What the caller of a split of this vector has: of a refused one this vector and an empty one, and no segment was looked at.
    pub fn halves_after(self, split: Result<Halves, Refusal>) -> Halves
        ensures { result ≡ halves_after self split }
    {
        split.unwrap_or(Halves {
            head: self,
            tail: IoVector::new(),
            looked: 0, // neither part was sought
        })
    }

    // What the caller of a split for the tail alone has: of a refused one this vector, and no segment was looked at.
    pub fn tail_after(self, split: Result<Tail, Refusal>) -> Tail
        ensures { result ≡ tail_after self split }
    {
        split.unwrap_or(Tail {
            vector: self,
            looked: 0, // the tail was not sought
        })
    }

    // Where the head of the first `mid` bytes ends and the tail starts; at or past the total, behind the last segment. Past
    // half the total the walk goes from the last segment; tested by the difference, as twice `mid` may pass 2^64 - 1.
    // Each walk stays a loop that counts: by the project's rule for splits it yields the position by break.
    // The walk and the two parts below borrow the vector: by value each call would copy its 272 bytes.
    fn do_split_at(&self, mid: u64) -> Split
        requires { IsVector self.now }
        ensures { result ≡ split_at (segments_of self.now) mid }
    {
        let n = self.count;
        if self.total <= mid {
            return meet(n, 0, 0);
        }
        if self.total - mid < mid {
            // `rest` bytes of the tail lie before segment i
            let mut i = n;
            let mut rest = self.total - mid;
            let split = loop {
                i -= 1;
                let length = self.segments[i].length as u64;
                if rest <= length {
                    break meet(i, (length - rest) as usize, n - i);
                }
                rest -= length;
            };
            return split;
        }
        // `rest` bytes of the head lie from segment i on; where none do, it is not looked at
        let mut i = 0usize;
        let mut rest = mid;
        let split = loop {
            if rest == 0 {
                break meet(i, 0, i);
            }
            let length = self.segments[i].length as u64;
            if rest < length {
                break meet(i, rest as usize, i + 1);
            }
            rest -= length;
            i += 1;
        };
        split
    }

    // The segments before the position: of the one it lies in, the first part.
    fn head_to(&self, position: SplitPosition) -> IoVector
        requires { Cut self.now position }
        ensures { result ≡ vector_of (head_at (segments_of self.now) position) }
    {
        let SplitPosition { index, inside } = position;
        let mut head = IoVector::new();
        head.join(self, 0, index);
        if inside == 0 {
            return head;
        }
        head.put_last(Segment {
            length: inside,
            ..self.segments[index]
        });
        head
    }

    // The segments from the position on: of the one it lies in, the last part.
    fn tail_from(&self, position: SplitPosition) -> IoVector
        requires { Cut self.now position }
        ensures { result ≡ vector_of (tail_at (segments_of self.now) position) }
    {
        let SplitPosition { index, inside } = position;
        let mut tail = IoVector::new();
        tail.join(self, index, self.count - index);
        if inside == 0 {
            return tail;
        }
        let first = &mut tail.segments[0];
        first.start += inside;
        first.length -= inside;
        tail.total -= inside as u64;
        tail
    }
}
