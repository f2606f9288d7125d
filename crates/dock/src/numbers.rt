// Document 01's number for each case of an answer.
ghost use Rattle.std.specs.Prelude.{◌≡◌};
ghost use Rattle.dock.specs.Numbers.{Paper, begun_paper, due_paper, piece_paper, collected_paper};

use crate::next::{Due, Piece};
use arithmetic::refusals::Refusal;

// An answer that document 01 writes as a number, with values beside it.
pub trait Numbered {
    ghost paper: { Self → Paper };

    // Its number: 0, a code of the store, or one of the table. None for an answer that has values alone.
    fn number(self) -> Option<u8>
        ensures { result ≡ (paper self).number };
}

// What begin answers.
impl Numbered for Result<Option<usize>, Refusal> {
    ghost paper = { begun_paper };

    fn number(self) -> Option<u8> {
        match self {
            Ok(None) => Some(0),
            Ok(Some(_)) => None,
            Err(refusal) => Some(refusal.number()),
        }
    }
}

// What next answers.
impl Numbered for Result<Due, Refusal> {
    ghost paper = { due_paper };

    fn number(self) -> Option<u8> {
        match self {
            Ok(Due::Waiting) => None,
            Ok(Due::Make(_)) => None,
            Ok(Due::Answer(code)) => Some(code),
            Err(refusal) => Some(refusal.number()),
        }
    }
}

// Where a piece lies.
impl Numbered for Result<Piece, Refusal> {
    ghost paper = { piece_paper };

    fn number(self) -> Option<u8> {
        match self {
            Ok(_) => None,
            Err(refusal) => Some(refusal.number()),
        }
    }
}

// What collect answers.
impl Numbered for Result<u8, Refusal> {
    ghost paper = { collected_paper };

    fn number(self) -> Option<u8> {
        match self {
            Ok(code) => Some(code),
            Err(refusal) => Some(refusal.number()),
        }
    }
}
