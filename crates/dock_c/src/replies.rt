// What crosses the boundary: document 01's number and values of an answer, in one struct of words.
ghost use Rattle.std.specs.Prelude.{◌≡◌, get_or, Ok};
ghost use Rattle.arithmetic.specs.Refusals.{number_of};
ghost use Rattle.dock.specs.Numbers.{valued, begun_paper, due_paper, piece_paper};
ghost use Rattle.dock.specs.declared.next.Due.TheVariants.{Make};
ghost use Rattle.dock_c.specs.Replies.{reply_of, numbers, count_paper, planned_paper, alignment_paper, split_paper, profile_paper};
ghost use Rattle.dock_c.specs.Replies.{joined_paper, collected_number};

use arithmetic::offsets::Range;
use arithmetic::refusals::Refusal;
use arithmetic::settings::Alignments;
use dock::next::{Due, Piece};
use dock_shown::shown::kind_number;
use sheets::joining::Size;
use stages::state::{Request, size};

// The number that stands for none: an answer that has values alone.
const NO_NUMBER: u64 = 256;

// A number of document 01's, or NO_NUMBER; how many values there are; and the values, 0 past the last.
#[repr(C)]
#[derive(Clone, Copy)]
pub struct Reply {
    pub number: u64,
    pub count: u64,
    pub first: u64,
    pub second: u64,
    pub third: u64,
    pub fourth: u64,
}

// Value i, 0 past the last.
fn value_at(values: &[u64], i: usize) -> u64
    ensures { result ≡ get_or values.now i 0 }
{
    values.get(i).copied().unwrap_or(0)
}

impl Reply {
    fn of_number(number: u64) -> Reply
        ensures { result ≡ numbers number }
    {
        Reply {
            number,
            ..Reply::of_values(&[])
        }
    }

    // An answer that has values alone: at most four.
    fn of_values(values: &[u64]) -> Reply
        ensures { result ≡ reply_of (valued values.now) }
    {
        Reply {
            number: NO_NUMBER,
            count: values.len() as u64,
            first: value_at(values, 0),
            second: value_at(values, 1),
            third: value_at(values, 2),
            fourth: value_at(values, 3),
        }
    }
}

impl From<Refusal> for Reply {
    ghost from_gives = { λ refusal made. made ≡ numbers (number_of refusal) };

    fn from(refusal: Refusal) -> Reply {
        Reply::of_number(refusal.number() as u64)
    }
}

impl From<Request> for Reply {
    ghost from_gives = { λ q made. made ≡ reply_of (due_paper (Ok (Make q))) };

    fn from(q: Request) -> Reply {
        Reply::of_values(&[kind_number(q.kind), q.offset.0, q.length, q.segments as u64])
    }
}

// What begin answers.
impl From<Result<Option<usize>, Refusal>> for Reply {
    ghost from_gives = { λ begun made. made ≡ reply_of (begun_paper begun) };

    fn from(begun: Result<Option<usize>, Refusal>) -> Reply {
        match begun {
            Ok(None) => Reply::of_number(0),
            Ok(Some(slot)) => Reply::of_values(&[slot as u64]),
            Err(refusal) => Reply::from(refusal),
        }
    }
}

// What next answers.
impl From<Result<Due, Refusal>> for Reply {
    ghost from_gives = { λ due made. made ≡ reply_of (due_paper due) };

    fn from(due: Result<Due, Refusal>) -> Reply {
        match due {
            Ok(Due::Waiting) => Reply::of_values(&[]),
            Ok(Due::Make(q)) => Reply::from(q),
            Ok(Due::Answer(code)) => Reply::of_number(code as u64),
            Err(refusal) => Reply::from(refusal),
        }
    }
}

// Where a piece lies.
impl From<Result<Piece, Refusal>> for Reply {
    ghost from_gives = { λ piece made. made ≡ reply_of (piece_paper piece) };

    fn from(piece: Result<Piece, Refusal>) -> Reply {
        match piece {
            Ok(Piece::InData(s)) => Reply::of_values(&[0, s.start as u64, s.length as u64]),
            Ok(Piece::InScratch(s)) => Reply::of_values(&[1, s.start as u64, s.length as u64]),
            Err(refusal) => Reply::from(refusal),
        }
    }
}

// A count of chunks.
impl From<Result<u64, Refusal>> for Reply {
    ghost from_gives = { λ count made. made ≡ reply_of (count_paper count) };

    fn from(count: Result<u64, Refusal>) -> Reply {
        match count {
            Ok(n) => Reply::of_values(&[n]),
            Err(refusal) => Reply::from(refusal),
        }
    }
}

// A chunk.
impl From<Result<Range, Refusal>> for Reply {
    ghost from_gives = { λ planned made. made ≡ reply_of (planned_paper planned) };

    fn from(planned: Result<Range, Refusal>) -> Reply {
        match planned {
            Ok(chunk) => Reply::of_values(&[chunk.start.0, size(chunk)]),
            Err(refusal) => Reply::from(refusal),
        }
    }
}

// Whether a vector is aligned.
impl From<Result<bool, Refusal>> for Reply {
    ghost from_gives = { λ aligned made. made ≡ reply_of (alignment_paper aligned) };

    fn from(aligned: Result<bool, Refusal>) -> Reply {
        match aligned {
            Ok(aligned) => Reply::of_values(&[u64::from(aligned)]),
            Err(refusal) => Reply::from(refusal),
        }
    }
}

// The alignments of a row.
impl From<Result<Alignments, Refusal>> for Reply {
    ghost from_gives = { λ profile made. made ≡ reply_of (profile_paper profile) };

    fn from(profile: Result<Alignments, Refusal>) -> Reply {
        match profile {
            Ok(a) => Reply::of_values(&[a.mem, a.req, a.zero, a.discard]),
            Err(refusal) => Reply::from(refusal),
        }
    }
}

// A split that was carried out answers 0, and how many segments it looked at.
impl From<Result<usize, Refusal>> for Reply {
    ghost from_gives = { λ split made. made ≡ reply_of (split_paper split) };

    fn from(split: Result<usize, Refusal>) -> Reply {
        match split {
            Ok(looked) => Reply {
                number: 0,
                ..Reply::of_values(&[looked as u64])
            },
            Err(refusal) => Reply::from(refusal),
        }
    }
}

// Joined writes: 0, and how many ranges and bytes they became.
impl From<Result<Size, Refusal>> for Reply {
    ghost from_gives = { λ joined made. made ≡ reply_of (joined_paper joined) };

    fn from(joined: Result<Size, Refusal>) -> Reply {
        match joined {
            Ok(size) => Reply {
                number: 0,
                ..Reply::of_values(&[size.ranges as u64, size.bytes as u64])
            },
            Err(refusal) => Reply::from(refusal),
        }
    }
}

// No `From`: neither the Result nor u8 is this crate's.
pub(crate) fn collected_number(c: Result<u8, Refusal>) -> u8
    ensures { result ≡ collected_number c }
{
    match c {
        Ok(code) => code,
        Err(r) => r.number(),
    }
}
