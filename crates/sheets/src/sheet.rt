// A sheet: writes whose bytes lie in lent data, each in a row of three words. Offset on the store, start in the data, length.
ghost use Rattle.std.specs.Prelude.{◌≡◌, true, false, ◌<◌, length, MatchResult};
ghost use Rattle.arithmetic.specs.Rows.{put};
ghost use Rattle.sheets.specs.Sheets.{write_from, writes_in, writes_of, row_of, is_sound, sheet_fits};

use arithmetic::offsets::{LARGEST, StoreOffset};
use arithmetic::refusals::Refusal;

#[derive(Clone, Copy)]
pub struct SheetWrite {
    pub offset: StoreOffset,
    pub start: u64, // of its bytes in the data
    pub length: u64,
}

impl From<[u64; 3]> for SheetWrite {
    ghost from_gives = { λ row w. w ≡ write_from row };

    fn from(row: [u64; 3]) -> SheetWrite {
        let [offset, start, length] = row;
        SheetWrite {
            offset: StoreOffset(offset),
            start,
            length,
        }
    }
}

impl From<SheetWrite> for [u64; 3] {
    ghost from_gives = { λ w row. row ≡ row_of w };

    fn from(w: SheetWrite) -> [u64; 3] {
        [w.offset.0, w.start, w.length]
    }
}

impl SheetWrite {
    // Whether it is not empty, does not wrap and lies in the data.
    fn is_sound(self, data_len: usize) -> bool
        ensures { result ≡ is_sound data_len self }
    {
        let room = data_len as u64;
        self.length > 0
            && self.length <= LARGEST - self.offset.0
            && self.start <= room
            && self.length <= room - self.start
    }
}

// How many writes a sheet has at most.
pub const MOST_WRITES: usize = 64;

// Write it into row i: by index, since of rows that `as_chunks_mut` lends the library does not say what they become.
pub(crate) fn put_write(rows: &mut [u64; 192], i: usize, w: SheetWrite)
    requires { i < 64 }
    ensures { rows.new ≡ put 3 i rows.old (row_of w) }
{
    let at = i * 3;
    rows[at..at + 3].copy_from_slice(&<[u64; 3]>::from(w));
}

// A sheet that is not refused: its writes in their rows, and the data in which their bytes lie.
#[derive(Clone, Copy)]
pub(crate) struct Sheet<'a> {
    pub(crate) writes: &'a [[u64; 3]],
    pub(crate) data: &'a [u8],
    pub(crate) ghost fits: { sheet_fits (length «data».now) (writes_of writes.now) ≡ true },
}

// Whether a sheet has at most 64 writes, and all are sound.
fn sheet_fits(writes: &[[u64; 3]], data_len: usize) -> bool
    ensures { result ≡ sheet_fits data_len (writes_of writes.now) }
{
    writes.len() <= MOST_WRITES
        && writes
            .iter()
            .all(|row| SheetWrite::from(*row).is_sound(data_len))
}

impl<'a> Sheet<'a> {
    // The sheet of the words, or 220. Words behind the last whole row say nothing.
    pub(crate) fn new(words: &'a [u64], data: &'a [u8]) -> Result<Sheet<'a>, Refusal>
        ensures { MatchResult result
            (λ s. (writes_of s.writes.now ≡ writes_in words.now) × (s.«data».now ≡ «data».now))
            (λ r. (r ≡ Refusal.Sheet) × (sheet_fits (length «data».now) (writes_in words.now) ≡ false)) }
    {
        let (writes, _) = words.as_chunks::<3>();
        if !sheet_fits(writes, data.len()) {
            return Err(Refusal::Sheet);
        }
        Ok(Sheet { writes, data })
    }
}
