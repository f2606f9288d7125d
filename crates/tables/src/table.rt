// A drive table: up to 64 rows, numbered from 0 in the order of the file. Loading takes any bytes.
ghost use Rattle.std.specs.Prelude.{◌≡◌, ◌+◌, ◌≤◌, length, take, drop};
ghost use Rattle.records.specs.Records.{little_endian};
ghost use Rattle.tables.specs.Tables.{row_of, entry_of, next_of, load_of, profile_in};

use arithmetic::refusals::Refusal;
use arithmetic::settings::Alignments;
use records::{Header, first_record, u32_of};

// The first `count` rows count. An array and a length beside it: there is no heap, and the words of a table (`table_from`) have any count.
#[derive(Clone, Copy)]
pub struct Table {
    pub rows: [Alignments; MOST_ROWS],
    pub count: usize,
}

// The kind of a record that is a row.
const ROW: u64 = 1;

// A row's body: four alignments of 32 bits.
const ROW_BODY: usize = 16;

// How many rows a table has at most.
pub const MOST_ROWS: usize = 64;

// What stands in the place of a row that is not there.
const NO_ROW: Alignments = Alignments {
    mem: 0,
    req: 0,
    zero: 0,
    discard: 0,
};

// The 32-bit number from `at` on.
fn number_at(body: &[u8], at: usize) -> u64
    requires { at + 4 ≤ length body.now }
    ensures { result ≡ little_endian (take 4 (drop at body.now)) }
{
    u32_of(body[at], body[at + 1], body[at + 2], body[at + 3])
}

// The alignments of a row's body: a slice and no `&[u8; 16]`, since `read_entry` tests the length for its refusal.
fn read_row(body: &[u8]) -> Alignments
    requires { length body.now ≡ 16 }
    ensures { result ≡ row_of body.now }
{
    Alignments {
        mem: number_at(body, 0),
        req: number_at(body, 4),
        zero: number_at(body, 8),
        discard: number_at(body, 12),
    }
}

// The row that a record is to a table that has `count` rows; none where it is of a kind that is passed over. 211 is tested before 212.
fn read_entry(kind: u64, body: &[u8], count: usize) -> Result<Option<Alignments>, Refusal>
    ensures { result ≡ entry_of count kind body.now }
{
    if kind != ROW {
        return Ok(None);
    }
    if body.len() != ROW_BODY {
        return Err(Refusal::Table);
    }
    if MOST_ROWS <= count {
        return Err(Refusal::Table);
    }
    let row = read_row(body);
    if !row.is_fit() {
        return Err(Refusal::Row);
    }
    Ok(Some(row))
}

// The record that `rest` starts with; 211 where it is broken.
fn next_record(rest: &[u8]) -> Result<Option<Header>, Refusal>
    ensures { result ≡ next_of rest.now }
{
    first_record(rest).map_err(|_| Refusal::Table)
}

// The table of the bytes, or why it is refused: the first bad record decides, and a table has a row.
pub fn load(bytes: &[u8]) -> Result<Table, Refusal>
    ensures { result ≡ load_of bytes.now }
{
    let mut rows = [NO_ROW; MOST_ROWS];
    let mut count: usize = 0;
    let mut rest = bytes;
    while let Some(record) = next_record(rest)? {
        let (body, behind) = rest[4..].split_at(record.body);
        if let Some(row) = read_entry(record.kind, body, count)? {
            rows[count] = row;
            count += 1;
        }
        rest = behind;
    }
    if count == 0 {
        return Err(Refusal::Table);
    }
    Ok(Table { rows, count })
}

impl Table {
    // A row by its index, as a drive profile; past the count 201.
    pub fn row(self, index: usize) -> Result<Alignments, Refusal>
        ensures { result ≡ profile_in self index }
    {
        if self.count <= index {
            return Err(Refusal::Unfit);
        }
        if MOST_ROWS <= index {
            return Err(Refusal::Unfit);
        }
        Ok(self.rows[index])
    }
}
