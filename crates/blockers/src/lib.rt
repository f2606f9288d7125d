// Layer 3: weak and strong write blockers by slot (imago: storage/drivers.rs). A blocker is entered even while it waits, notes
// the slots of those it must wait for, and waits exactly while one of them is still there.
#![tactic(auto)]

ghost use Rattle.std.specs.Prelude.{map, ◌≡◌, ◌<◌};
ghost use Rattle.blockers.specs.Blockers.{overlaps, is_entered, conflict, notes, notes_of, vacant, no_blockers, forgetting, changed};
ghost use Rattle.blockers.specs.Blockers.{entered_of, left_of, waits_of, strength};

use arithmetic::offsets::{Range, StoreOffset};
use arithmetic::refusals::Refusal;

// What stands in a slot. Not an Option of the two kinds: any words are a blocker, and those of an absent one have a range and notes
// too (`blocker_of`, specs/View.antt of crate dock_words).
#[derive(Clone, Copy, PartialEq, Eq)]
pub enum Kind {
    Absent,
    Weak,
    Strong,
}

// A slot's blocker: its range, and the slots that it noted and that are still there.
#[derive(Clone, Copy)]
pub struct Blocker {
    pub kind: Kind,
    pub range: Range,
    pub noted: [bool; 8],
}

#[derive(Clone, Copy)]
pub struct Blockers {
    pub slots: [Blocker; 8],
}

const SLOTS: usize = 8;

// Whether two ranges overlap: each starts before the other ends.
#[tactic(auto, unfolding(crate::specs::Blockers::overlaps))]
pub fn range_overlaps(a: Range, b: Range) -> bool
    ensures { result ≡ overlaps a b }
{
    (a.start.0 < b.end.0) & (b.start.0 < a.end.0)
}

// The kind of one that is strong, or is not.
pub fn strength(strong: bool) -> Kind
    ensures { result ≡ strength strong }
{
    if strong { Kind::Strong } else { Kind::Weak }
}

// Whether a blocker of kind `entering` notes an overlapping one of kind `there`: not where both are weak.
#[tactic(auto, unfolding(crate::specs::Blockers::conflict))]
pub fn conflicts(entering: Kind, there: Kind) -> bool
    ensures { result ≡ conflict entering there }
{
    matches!(
        (entering, there),
        (Kind::Weak, Kind::Strong) | (Kind::Strong, Kind::Weak) | (Kind::Strong, Kind::Strong)
    )
}

// No blocker.
pub fn make_vacant() -> Blocker
    ensures { result ≡ vacant }
{
    Blocker {
        kind: Kind::Absent,
        range: Range {
            start: StoreOffset(0),
            end: StoreOffset(0),
        },
        noted: [false; 8],
    }
}

impl Blocker {
    fn is_entered(self) -> bool
        ensures { result ≡ is_entered self }
    {
        self.kind != Kind::Absent
    }

    // Whether a blocker of this kind over `range` that enters now must wait for this one.
    #[tactic(auto, unfolding(crate::specs::Blockers::notes))]
    fn is_noted(self, kind: Kind, range: Range) -> bool
        ensures { result ≡ notes kind range self }
    {
        conflicts(kind, self.kind) & range_overlaps(self.range, range)
    }

    // The blocker without `slot` among those that it noted.
    #[tactic(auto, unfolding(crate::specs::Blockers::forgetting))]
    fn forget_slot(mut self, slot: usize) -> Blocker
        requires { slot < 8 }
        ensures { result ≡ forgetting slot self }
    {
        self.noted[slot] = false;
        self
    }
}

impl Blockers {
    // No blocker entered.
    #[tactic(auto, unfolding(crate::specs::Blockers::no_blockers))]
    pub fn new() -> Blockers
        ensures { result ≡ no_blockers }
    {
        let b = make_vacant();
        Blockers { slots: [b; 8] }
    }

    // Which slots' blockers one of this kind over `range` must wait for.
    fn notes(self, kind: Kind, range: Range) -> [bool; 8]
        ensures { result ≡ notes_of kind range self }
    {
        self.slots.map(|b| b.is_noted(kind, range))
    }

    #[tactic(auto, unfolding(crate::specs::Blockers::entered_of))]
    fn enter(mut self, kind: Kind, slot: usize, range: Range) -> Result<Blockers, Refusal>
        ensures { result ≡ changed (entered_of kind slot range self) }
    {
        if SLOTS <= slot || self.slots[slot].is_entered() {
            return Err(Refusal::Slot);
        }
        let noted = self.notes(kind, range);
        self.slots[slot] = Blocker { kind, range, noted };
        Ok(self)
    }

    // Enter a weak blocker: it waits for every overlapping strong one. Refused (208) past slot 7 and where one is entered.
    pub fn weak_write_blocker(self, slot: usize, range: Range) -> Result<Blockers, Refusal>
        ensures { result ≡ changed (entered_of Kind.Weak slot range self) }
    {
        self.enter(Kind::Weak, slot, range)
    }

    // Enter a strong blocker: it waits for every overlapping one. Refused (208) past slot 7 and where one is entered.
    pub fn strong_write_blocker(self, slot: usize, range: Range) -> Result<Blockers, Refusal>
        ensures { result ≡ changed (entered_of Kind.Strong slot range self) }
    {
        self.enter(Kind::Strong, slot, range)
    }

    // The blockers, none of which notes `slot`.
    fn forget(self, slot: usize) -> Blockers
        requires { slot < 8 }
        ensures { result.slots ≡ map (forgetting slot) self.slots }
    {
        Blockers {
            slots: self.slots.map(|b| b.forget_slot(slot)),
        }
    }

    // The slot's blocker is gone, and nobody notes it any more. Refused (208) past slot 7 and where none is entered.
    #[tactic(auto, unfolding(crate::specs::Blockers::left_of))]
    pub fn leave(self, slot: usize) -> Result<Blockers, Refusal>
        ensures { result ≡ changed (left_of slot self) }
    {
        if SLOTS <= slot || !self.slots[slot].is_entered() {
            return Err(Refusal::Slot);
        }
        let mut rest = self.forget(slot);
        rest.slots[slot] = make_vacant();
        Ok(rest)
    }

    // Whether the slot's blocker waits: one that it noted is still there. Past slot 7 none waits.
    pub fn waits(self, slot: usize) -> bool
        ensures { result ≡ waits_of slot self }
    {
        if SLOTS <= slot {
            return false;
        }
        let own = self.slots[slot];
        for (i, other) in self.slots.iter().enumerate() {
            if own.noted[i] & other.is_entered() {
                return true;
            }
        }
        false
    }
}
