// Drive tables from a customer (document 02, N3), in the 257 words in which a host holds one.
ghost use Rattle.std.specs.Prelude.{◌≡◌};
ghost use Rattle.tables.specs.Tables.{load_of, profile_in};
ghost use Rattle.tables.specs.Words.{table_from};
ghost use Rattle.dock_c.specs.Replies.{reply_of, profile_paper, LoadsAs};

use crate::replies::Reply;
use arithmetic::refusals::outcome_number;
use tables::words::{load_words, row_of};

// Load the table of the bytes; refused (211, 212) every word stays.
#[unsafe(no_mangle)]
pub extern "C" fn dock_words_load_table(table: &mut [u64; 257], bytes: &[u8]) -> u8
    ensures { LoadsAs (load_of bytes.now) result table.old table.new }
{
    let outcome = load_words(table, bytes);
    outcome_number(outcome)
}

// The alignments of a row; past the last 201.
#[unsafe(no_mangle)]
pub extern "C" fn dock_words_table_row(table: &[u64; 257], row: usize) -> Reply
    ensures { result ≡ reply_of (profile_paper (profile_in (table_from table.now) row)) }
{
    Reply::from(row_of(table, row))
}
