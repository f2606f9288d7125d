// The combined calls: each does what one of `arrays` does, and answers with what is next of the slot and the first piece of its request, or
// with the final answer, collected. So a request costs one call. For any words.
ghost use Rattle.std.specs.Prelude.{◌≡◌};
ghost use Rattle.dock.specs.Begin.{begin_of};
ghost use Rattle.dock.specs.Tell.{tell_of};
ghost use Rattle.dock.specs.Numbers.{kind_number};
ghost use Rattle.arithmetic.specs.Refusals.{is_done};
ghost use Rattle.dock_words.specs.View.{dock_of};
ghost use Rattle.dock_words.specs.CallWords.{is_admitted, same_two, same_three};
ghost use Rattle.dock_shown.specs.Shown.{NotShown, Asks, short_words, shown_words, is_collected, show_of, ShowsAs, shown_begun, submit_of};
ghost use Rattle.dock_shown.specs.Shown.{complete_of, LeavesBytes};

use arithmetic::refusals::Refusal;
use dock::begin::Asked;
use dock::next::{Due, Piece};
use dock_words::arrays::{
    BlockerRows, SettingRow, StateRows, VectorRows, begin, collect, next, piece, tell,
};
use stages::state::{Kind, Request};

// In every contract here settings, blockers, states and vectors stand one by one: the C interface lends each in an array of its own.

// The number of a request's kind. Both are other crates' types, so no `From` can say it; and a match keeps document 01's numbers apart
// from the order in which the kinds are declared.
pub fn kind_number(k: Kind) -> u64
    ensures { result ≡ kind_number k }
{
    match k {
        Kind::Read => 0,
        Kind::Write => 1,
        Kind::Zero => 2,
        Kind::AllocatedZero => 3,
        Kind::Discard => 4,
    }
}

// An answer of one number: what it is (0 refused, 1 final, 2 waiting), and the number.
fn put_short(reply: &mut [u64; 9], what: u64, number: u64)
    ensures { reply.new ≡ short_words what number }
{
    *reply = [what, number, 0, 0, 0, 0, 0, 0, 0];
}

fn put_refusal(reply: &mut [u64; 9], r: Refusal)
    ensures { reply.new ≡ shown_words (NotShown r) }
{
    put_short(reply, 0, r.number() as u64);
}

// The request that is out in `slot`, and its first piece.
fn put_request(reply: &mut [u64; 9], slot: usize, q: Request, p: Result<Piece, Refusal>)
    ensures { reply.new ≡ shown_words (Asks slot q p) }
{
    let (buffer, start, length) = match p {
        Ok(Piece::InData(s)) => (0, s.start, s.length),
        Ok(Piece::InScratch(s)) => (1, s.start, s.length),
        Err(_) => (0, 0, 0),
    };
    *reply = [
        3,
        slot as u64,
        kind_number(q.kind),
        q.offset.0,
        q.length,
        q.segments as u64,
        buffer,
        start as u64,
        length as u64,
    ];
}

// What the job in `slot` needs now, with the first piece of its request; its final answer is collected, and the slot is free again.
pub fn show(
    settings: &SettingRow,
    blockers: &BlockerRows,
    states: &mut StateRows,
    vectors: &mut VectorRows,
    slot: usize,
    data_len: usize,
    scratch_len: usize,
    reply: &mut [u64; 9],
)
    ensures dock { ShowsAs (show_of
        (dock_of settings.now blockers.now states.old vectors.old)
        slot data_len scratch_len)
        reply.new (dock_of settings.now blockers.now states.new vectors.new) }
    ensures words { same_two (is_collected (show_of
        (dock_of settings.now blockers.now states.old vectors.old)
        slot data_len scratch_len).answer) states.old vectors.old states.new
        vectors.new }
{
    let due = match next(
        settings,
        blockers,
        states,
        vectors,
        slot,
        data_len,
        scratch_len,
    ) {
        Ok(due) => due,
        Err(r) => return put_refusal(reply, r),
    };
    match due {
        Due::Waiting => put_short(reply, 2, slot as u64),
        Due::Answer(code) => {
            // what it answers is the code that next gave
            let _ = collect(
                settings,
                blockers,
                states,
                vectors,
                slot,
                data_len,
                scratch_len,
            );
            put_short(reply, 1, code as u64);
        }
        Due::Make(q) => {
            let p = piece(
                settings,
                blockers,
                states,
                vectors,
                slot,
                0,
                data_len,
                scratch_len,
            );
            put_request(reply, slot, q, p);
        }
    }
}

// What comes of a begin: the slot of the job is shown; where there is nothing to do, the final answer is 0.
fn show_begun(
    settings: &SettingRow,
    blockers: &BlockerRows,
    states: &mut StateRows,
    vectors: &mut VectorRows,
    begun: Result<Option<usize>, Refusal>,
    data_len: usize,
    scratch_len: usize,
    reply: &mut [u64; 9],
)
    ensures dock { ShowsAs (shown_begun begun
        (dock_of settings.now blockers.now states.old vectors.old)
        data_len scratch_len)
        reply.new (dock_of settings.now blockers.now states.new vectors.new) }
    ensures words { same_two (is_admitted begun) states.old vectors.old
        states.new vectors.new }
{
    let taken = match begun {
        Ok(taken) => taken,
        Err(r) => return put_refusal(reply, r),
    };
    match taken {
        None => put_short(reply, 1, 0),
        Some(slot) => show(
            settings,
            blockers,
            states,
            vectors,
            slot,
            data_len,
            scratch_len,
            reply,
        ),
    }
}

// Begin what is asked, and show the slot that it gets.
pub fn submit(
    settings: &SettingRow,
    blockers: &mut BlockerRows,
    states: &mut StateRows,
    vectors: &mut VectorRows,
    asked: Asked,
    data: &[u8],
    scratch: &mut [u8],
    reply: &mut [u64; 9],
)
    ensures dock { ShowsAs (submit_of
        (dock_of settings.now blockers.old states.old vectors.old)
        asked «data».now scratch.old)
        reply.new (dock_of settings.now blockers.new states.new vectors.new) }
    ensures bytes { scratch.new ≡ (begin_of
        (dock_of settings.now blockers.old states.old vectors.old)
        asked «data».now scratch.old).scratch }
    ensures words { same_three (is_admitted (begin_of
        (dock_of settings.now blockers.old states.old vectors.old)
        asked «data».now scratch.old).answer)
        blockers.old states.old vectors.old
        blockers.new states.new vectors.new }
{
    let data_len = data.len();
    let scratch_len = scratch.len();
    let begun = begin(settings, blockers, states, vectors, asked, data, scratch);
    show_begun(
        settings,
        blockers,
        states,
        vectors,
        begun,
        data_len,
        scratch_len,
        reply,
    );
}

// Hand in the code of the request that is out in `slot`, and show the slot where the code was accepted.
pub fn complete(
    settings: &SettingRow,
    blockers: &mut BlockerRows,
    states: &mut StateRows,
    vectors: &mut VectorRows,
    slot: usize,
    code: u8,
    data: &mut [u8],
    scratch: &mut [u8],
    reply: &mut [u64; 9],
)
    ensures dock { ShowsAs (complete_of
        (dock_of settings.now blockers.old states.old vectors.old)
        slot code «data».old scratch.old)
        reply.new (dock_of settings.now blockers.new states.new vectors.new) }
    ensures bytes { LeavesBytes (tell_of
        (dock_of settings.now blockers.old states.old vectors.old)
        slot code «data».old scratch.old) «data».new scratch.new }
    ensures words { same_three (is_done (tell_of
        (dock_of settings.now blockers.old states.old vectors.old)
        slot code «data».old scratch.old).outcome)
        blockers.old states.old vectors.old
        blockers.new states.new vectors.new }
{
    let data_len = data.len();
    let scratch_len = scratch.len();
    let outcome = tell(
        settings, blockers, states, vectors, slot, code, data, scratch,
    );
    if let Err(r) = outcome {
        return put_refusal(reply, r);
    }
    show(
        settings,
        blockers,
        states,
        vectors,
        slot,
        data_len,
        scratch_len,
        reply,
    );
}
