// A drive table in 257 words, as a host holds it: how many rows, then M, R, Z, D of each of the 64. Any words are a table.
ghost use Rattle.std.specs.Prelude.{◌≡◌, length};
ghost use Rattle.tables.specs.Tables.{load_of, profile_in};
ghost use Rattle.tables.specs.Words.{table_from, table_words, LoadsIn};

use crate::table::{MOST_ROWS, Table, load};
use arithmetic::refusals::Refusal;
use arithmetic::settings::Alignments;

// Write a table over all words: by index, since of rows that `as_chunks_mut` lends the library does not say what they become. A row's four
// words are named here and in `row_of`: `From` for `Alignments` could only stand in the crate that has the type.
fn put_table(words: &mut [u64; 257], t: Table)
    ensures { words.new ≡ table_words t }
{
    words[0] = t.count as u64;
    for (i, row) in t.rows.iter().enumerate() {
        let at = 1 + 4 * i;
        words[at..at + 4].copy_from_slice(&[row.mem, row.req, row.zero, row.discard]);
    }
}

// The table of the bytes into the words; refused (211, 212) before a word is written.
pub fn load_words(table: &mut [u64; 257], bytes: &[u8]) -> Result<(), Refusal>
    ensures { LoadsIn (load_of bytes.now) result table.old table.new }
{
    put_table(table, load(bytes)?);
    Ok(())
}

// A row by its index, as a drive profile; past the count 201.
pub fn row_of(table: &[u64; 257], index: usize) -> Result<Alignments, Refusal>
    ensures { result ≡ profile_in (table_from table.now) index }
{
    if MOST_ROWS <= index {
        return Err(Refusal::Unfit);
    }
    if table[0] <= index as u64 {
        return Err(Refusal::Unfit);
    }
    let (rows, _) = table[1..].as_chunks::<4>();
    let [mem, req, zero, discard] = rows[index];
    Ok(Alignments {
        mem,
        req,
        zero,
        discard,
    })
}
