// Sheets of writes joined to few (document 02, N14). A host holds writes in rows of three words: offset, start in the data, length. The
// joined ones are rows again, of which the start is in the output; there are at most 64.
ghost use Rattle.std.specs.Prelude.{◌≡◌};
ghost use Rattle.sheets.specs.Sheets.{writes_in, join_of};
ghost use Rattle.dock_c.specs.Replies.{JoinsWith};

use crate::replies::Reply;
use sheets::joining::join;

// Join the writes: 0, how many ranges they became and how many bytes these have; refused (220, 219) every word and byte stays.
#[unsafe(no_mangle)]
pub extern "C" fn dock_words_join(
    writes: &[u64],
    data: &[u8],
    output: &mut [u8],
    joined: &mut [u64; 192],
) -> Reply
    ensures { JoinsWith
        (join_of (writes_in writes.now) «data».now output.old joined.old)
        result output.new joined.new }
{
    Reply::from(join(writes, data, output, joined))
}
