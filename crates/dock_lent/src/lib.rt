// The dock's calls with the dock lent, for a host that keeps it in place: as `&mut Dock` where the call alters it, as `&Dock` where it does
// not. Each calls the one of crate dock, which takes the dock by value, and stores the dock that this returned. So each has that call's
// contract, of the dock as it was lent and as it is given back. The check finds their proofs by itself.
#![tactic(auto)]

ghost use Rattle.std.specs.Prelude.{◌≡◌, length};
ghost use Rattle.dock.specs.Begin.{begin_of, BeginGives};
ghost use Rattle.dock.specs.Next.{next_of, piece_of};
ghost use Rattle.dock.specs.Tell.{tell_of, TellGives, collect_of, CollectGives};

use arithmetic::refusals::Refusal;
use dock::begin::Asked;
use dock::dock::Dock;
use dock::next::{Due, Piece};

// Begin what is asked, in the lowest free slot.
pub fn begin(
    dock: &mut Dock,
    asked: Asked,
    data: &[u8],
    scratch: &mut [u8],
) -> Result<Option<usize>, Refusal>
    ensures { BeginGives (begin_of dock.old asked «data».now scratch.old)
        result dock.new scratch.new }
{
    let begun = dock.begin(asked, data, scratch);
    *dock = begun.dock;
    begun.answer
}

// What the job in `slot` needs now.
pub fn next(dock: &Dock, slot: usize, data: &[u8], scratch: &[u8]) -> Result<Due, Refusal>
    ensures { result ≡ next_of dock.now slot (length «data».now) (length scratch.now) }
{
    dock.next(slot, data, scratch)
}

// Where piece i of the slot's request lies.
pub fn piece_place(
    dock: &Dock,
    slot: usize,
    i: usize,
    data_len: usize,
    scratch_len: usize,
) -> Result<Piece, Refusal>
    ensures { result ≡ piece_of dock.now slot i data_len scratch_len }
{
    dock.piece_place(slot, i, data_len, scratch_len)
}

// Hand in the code of the request that is out.
pub fn tell(
    dock: &mut Dock,
    slot: usize,
    code: u8,
    data: &mut [u8],
    scratch: &mut [u8],
) -> Result<(), Refusal>
    ensures { TellGives (tell_of dock.old slot code «data».old scratch.old)
        result dock.new «data».new scratch.new }
{
    let told = dock.tell(slot, code, data, scratch);
    *dock = told.dock;
    told.outcome
}

// Take the final answer; the slot is free again.
pub fn collect(dock: &mut Dock, slot: usize, data: &[u8], scratch: &[u8]) -> Result<u8, Refusal>
    ensures { CollectGives (collect_of dock.old slot (length «data».now) (length scratch.now))
        result dock.new }
{
    let collected = dock.collect(slot, data, scratch);
    *dock = collected.dock;
    collected.answer
}
