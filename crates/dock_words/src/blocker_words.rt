// The blockers of the 8 slots, worked on in place: of each slot a row of 11 words, the kind's tag, start, end and 8 notes. For any words.
ghost use Rattle.std.specs.Prelude.{◌≡◌, ◌&&◌, map, ltb, ◌<◌, zip};
ghost use Rattle.std.specs.List.{list_any};
ghost use Rattle.blockers.specs.Blockers.{present, notes, notes_of, forgetting, entered_of, left_of, waits_of, blocker_at, is_entered};
ghost use Rattle.dock_words.specs.View.{flag_of, kind_of, blocker_of, blocker_words, blockers_of};
ghost use Rattle.dock_words.specs.CallWords.{ChangesBlockers};

use crate::rows::{BlockerRow, BlockerRows};
use crate::tags::{Tagged, get_range};
use arithmetic::offsets::Range;
use arithmetic::refusals::Refusal;
use blockers::{Blocker, Kind, conflicts, range_overlaps};
use dock::dock::SLOTS;

// Whether a tag says that a blocker is entered.
fn is_entered(tag: u64) -> bool
    ensures { result ≡ present (kind_of tag) }
{
    matches!(Kind::from_tag(tag), Kind::Weak | Kind::Strong)
}

// Whether a blocker of this kind over `range` that enters now must wait for the one in this row.
#[tactic(auto, unfolding(blockers::specs::Blockers::notes, crate::specs::View::blocker_of))]
fn is_noted(row: &BlockerRow, kind: Kind, range: Range) -> bool
    ensures { result ≡ notes kind range (blocker_of row.now) }
{
    conflicts(kind, Kind::from_tag(row[0])) && range_overlaps(get_range(row[1], row[2]), range)
}

// Which slots' blockers one of this kind over `range` must wait for.
fn notes(all: &BlockerRows, kind: Kind, range: Range) -> [bool; SLOTS]
    ensures { result ≡ notes_of kind range (blockers_of all.now) }
{
    // by index: of `all.each_ref().map(..)` the check found no proof, nor did a search with the lemmas on chains
    let mut noted = [false; SLOTS];
    for (i, row) in all.iter().enumerate() {
        noted[i] = is_noted(row, kind, range);
    }
    noted
}

// Write a blocker over a whole row.
fn put_blocker(row: &mut BlockerRow, b: Blocker)
    ensures { row.new ≡ blocker_words b }
{
    *row = [0; 11];
    row[0] = b.kind.tag();
    row[1] = b.range.start.0;
    row[2] = b.range.end.0;
    row[3..].copy_from_slice(&b.noted.map(|noted| noted as u64));
}

// Whether the slot has a blocker entered. Past slot 7 none is.
#[tactic(auto, using(crate::specs::Laws::entered_word))]
pub(crate) fn is_entered_at(all: &BlockerRows, slot: usize) -> bool
    ensures { result ≡ (ltb slot 8 && is_entered (blocker_at (blockers_of all.now) slot)) }
{
    slot < SLOTS && is_entered(all[slot][0])
}

// Whether one that has noted the blocker in this row waits for it: it is still there.
#[tactic(auto, unfolding(crate::specs::View::blocker_of))]
fn holds(row: &BlockerRow, note: u64) -> bool
    ensures { result ≡ (flag_of note && is_entered (blocker_of row.now)) }
{
    note != 0 && is_entered(row[0])
}

// Whether a blocker with these notes waits.
fn is_held(all: &BlockerRows, notes: &[u64]) -> bool
    ensures { result ≡ list_any (λ x. flag_of x.1 && is_entered (blocker_of x.0)) (zip all.now notes.now) }
{
    all.iter().zip(notes).any(|(row, note)| holds(row, *note))
}

// Whether the slot's blocker waits: one that it noted is still there. Past slot 7 none waits.
pub fn waits(all: &BlockerRows, slot: usize) -> bool
    ensures { result ≡ waits_of slot (blockers_of all.now) }
{
    if SLOTS <= slot {
        return false;
    }
    is_held(all, &all[slot][3..])
}

// Enter a blocker of this kind. Refused (208) past slot 7 and where one is entered.
pub fn enter(all: &mut BlockerRows, kind: Kind, slot: usize, range: Range) -> Result<(), Refusal>
    ensures { ChangesBlockers (entered_of kind slot range (blockers_of all.old)) result all.old all.new }
{
    if SLOTS <= slot || is_entered(all[slot][0]) {
        return Err(Refusal::Slot);
    }
    let noted = notes(all, kind, range);
    put_blocker(&mut all[slot], Blocker { kind, range, noted });
    Ok(())
}

// The words of the blockers, none of which notes `slot`.
fn forget(all: &mut BlockerRows, slot: usize)
    requires { slot < 8 }
    ensures { (blockers_of all.new).slots ≡ map (forgetting slot) (blockers_of all.old).slots }
{
    for row in all.iter_mut() {
        row[3 + slot] = 0;
    }
}

// The slot's blocker is gone, and nobody notes it any more. Refused (208) past slot 7 and where none is entered.
pub fn leave(all: &mut BlockerRows, slot: usize) -> Result<(), Refusal>
    ensures { ChangesBlockers (left_of slot (blockers_of all.old)) result all.old all.new }
{
    if !is_entered_at(all, slot) {
        return Err(Refusal::Slot);
    }
    forget(all, slot);
    all[slot] = [0; 11];
    Ok(())
}
