// Why a call was refused.
ghost use Rattle.std.specs.Prelude.{◌≡◌};
ghost use Rattle.arithmetic.specs.Refusals.{number_of, outcome_number};

#[derive(Clone, Copy)]
pub enum Refusal {
    Unfit, // alignment, bounce buffer length or drive profile unfit
    Segment, // segment empty or outside the data, a 17th, total too long, index or length that does not fit
    Overlap, // segments that must be apart overlap
    Full, // all 8 slots taken
    Buffer, // a lent buffer's address or length unfit
    TooLong, // padded length over the bounce buffer's
    Overflow, // sum past 2^64 - 1
    Slot, // no such slot, or nothing there that the call can act on
    NoAnswer, // told a code that is no answer
    Unaligned, // planner: offset or length no multiple of the request alignment
    Table, // drive table: a record cut, too short or of another length, a 65th row or none
    Row, // drive table: a row past the limits of an alignment
    Saved, // recorded write: the part for the old bytes too short, or outside the data
    Undo, // taking back: no write is remembered, or a later request reached its bytes
    Reservation, // reservation: empty, none in the slot, of another length, or still waiting
    Map, // map of touched blocks: none, its block size unfit, or a request past its blocks
    Window, // not in a window that may be changed; at opening: windows overlap, wrap or are over four
    Script, // script: a record cut, unknown, of an unknown user, or of one whose job still runs
    Output, // joined writes: the output is shorter than their bytes
    Sheet, // joined writes: over 64, or one empty, wrapping or outside the data
}

impl Refusal {
    #[tactic(auto, unfolding(crate::specs::Refusals::number_of))]
    pub fn number(self) -> u8
        ensures { result ≡ number_of self }
    {
        match self {
            Refusal::Unfit => 201,
            Refusal::Segment => 202,
            Refusal::Overlap => 203,
            Refusal::Full => 204,
            Refusal::Buffer => 205,
            Refusal::TooLong => 206,
            Refusal::Overflow => 207,
            Refusal::Slot => 208,
            Refusal::NoAnswer => 209,
            Refusal::Unaligned => 210,
            Refusal::Table => 211,
            Refusal::Row => 212,
            Refusal::Saved => 213,
            Refusal::Undo => 214,
            Refusal::Reservation => 215,
            Refusal::Map => 216,
            Refusal::Window => 217,
            Refusal::Script => 218,
            Refusal::Output => 219,
            Refusal::Sheet => 220,
        }
    }
}

// The number of a call that returns nothing else.
pub fn outcome_number(outcome: Result<(), Refusal>) -> u8
    ensures { result ≡ outcome_number outcome }
{
    match outcome {
        Ok(()) => 0,
        Err(refusal) => refusal.number(),
    }
}
