// Joining by a sweep over the store, from bound to bound of the writes in ascending order. Between two bounds every byte is one write's, so
// each byte of the output is written once; there are at most 128 bounds, and all writes are looked at in each turn. The sweeps count no
// index, but go on where the last stretch ended.
ghost use Rattle.std.specs.Prelude.{◌≡◌, ◌+◌, ◌-◌, ◌<◌, ◌≤◌, leb, length, take, drop};
ghost use Rattle.vectors.specs.Vectors.{put};
ghost use Rattle.sheets.specs.Sheets.{writes_in, writes_of, ranges_of, total_of, join_of, JoinsAs};
ghost use Rattle.sheets.specs.Stretches.{Owned, Lies, lengths_of, PacksAs};

use crate::sheet::{Sheet, SheetWrite, put_write};
use arithmetic::offsets::{LARGEST, StoreOffset};
use arithmetic::refusals::Refusal;

// The bytes of the store up to `end`: all are those of one write, the owner; or none is covered.
#[derive(Clone, Copy)]
pub struct Stretch {
    pub owner: Option<SheetWrite>,
    pub end: u64,
}

// How much the writes of a sheet became.
#[derive(Clone, Copy)]
pub struct Size {
    pub ranges: usize,
    pub bytes: usize,
}

impl Sheet<'_> {
    // The stretch from `at` on: up to the next bound of a write, or to the last offset.
    fn look(&self, at: u64) -> Stretch
        requires { at < 18446744073709551615 }
        ensures { Owned (writes_of self.now.writes.now) at result }
    {
        let mut owner = None;
        let mut end = LARGEST;
        for row in self.writes {
            let w = SheetWrite::from(*row);
            let from = w.offset.0;
            let to = from + w.length;
            if at < from {
                end = end.min(from);
            } else if at < to {
                owner = Some(w);
                end = end.min(to);
            }
        }
        Stretch { owner, end }
    }

    // How many bytes the joined ranges have.
    fn measure(&self) -> u64
        ensures { result ≡ total_of (ranges_of (writes_of self.now.writes.now)) }
    {
        let mut total: u64 = 0;
        let mut at: u64 = 0;
        while at < LARGEST {
            let s = self.look(at);
            if s.owner.is_some() {
                total += s.end - at;
            }
            at = s.end;
        }
        total
    }

    // Whether `room` bytes suffice for all writes, as if none covered a byte of another.
    fn holds_all(&self, room: u64) -> bool
        ensures { result ≡ leb (lengths_of (writes_of self.now.writes.now)) room }
    {
        let mut left = room;
        for row in self.writes {
            let Some(rest) = left.checked_sub(SheetWrite::from(*row).length) else {
                return false;
            };
            left = rest;
        }
        true
    }

    // Whether `room` bytes suffice for the joined ranges. They are counted only where the writes' lengths do not decide it.
    fn has_room(&self, room: u64) -> bool
        ensures { result ≡ leb (total_of (ranges_of (writes_of self.now.writes.now))) room }
    {
        self.holds_all(room) || self.measure() <= room
    }

    // The bytes of the ranges into the output, and a row for each of them; how many both are. The row of a range that goes on is written
    // anew.
    fn pack(&self, output: &mut [u8], joined: &mut [u64; 192]) -> Size
        requires { total_of (ranges_of (writes_of self.now.writes.now)) ≤ length output.old }
        ensures { PacksAs (writes_of self.now.writes.now) self.now.«data».now result output.old joined.old
            output.new joined.new }
    {
        let mut count: usize = 0;
        let mut filled: usize = 0;
        let mut open: Option<SheetWrite> = None; // the last range, where it may go on
        let mut at: u64 = 0;
        while at < LARGEST {
            let Stretch { owner, end } = self.look(at);
            if let Some(w) = owner {
                carry(w, self.data, output, at, end, filled);
                let range = match open {
                    Some(range) => SheetWrite {
                        length: end - range.offset.0,
                        ..range
                    },
                    None => {
                        count += 1;
                        SheetWrite {
                            offset: StoreOffset(at),
                            start: filled as u64,
                            length: end - at,
                        }
                    }
                };
                put_write(joined, count - 1, range);
                filled += (end - at) as usize;
                open = Some(range);
            } else {
                open = None;
            }
            at = end;
        }
        Size {
            ranges: count,
            bytes: filled,
        }
    }
}

// A write's bytes from `at` up to `end`, into the output from `filled` on.
fn carry(w: SheetWrite, data: &[u8], output: &mut [u8], at: u64, end: u64, filled: usize)
    requires { Lies w at end (length «data».now) × (filled + (end - at) ≤ length output.old) }
    ensures { output.new ≡ put output.old filled
        (take (end - at) (drop (w.start + (at - w.offset.0)) «data».now)) }
{
    let size = (end - at) as usize;
    let from = (w.start + (at - w.offset.0)) as usize;
    output[filled..filled + size].copy_from_slice(&data[from..from + size]);
}

// Join the writes: refused with 220, then with 219, before a byte or a word is written.
pub fn join(
    writes: &[u64],
    data: &[u8],
    output: &mut [u8],
    joined: &mut [u64; 192],
) -> Result<Size, Refusal>
    ensures { JoinsAs
        (join_of (writes_in writes.now) «data».now output.old joined.old)
        result output.new joined.new }
{
    let sheet = Sheet::new(writes, data)?;
    if !sheet.has_room(output.len() as u64) {
        return Err(Refusal::Output);
    }
    Ok(sheet.pack(output, joined))
}
