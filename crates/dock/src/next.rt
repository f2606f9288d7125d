// What is due, and where the pieces of a request lie.
ghost use Rattle.std.specs.Prelude.{true, ◌≡◌, ◌+◌, ◌<◌, ◌^◌, length};
ghost use Rattle.stages.specs.Stages.{is_sound};
ghost use Rattle.dock.specs.Dock.{is_out_by};
ghost use Rattle.dock.specs.Next.{due_in, next_of, is_sound_in, is_sound_at, in_scratch, in_data, piece_by, piece_in, piece_of};
ghost use Rattle.dock.specs.Next.{part_of};
ghost use Rattle.dock.specs.Next.{bytes_at, piece_bytes};

use crate::dock::{Dock, SLOTS, lent_fits};
use arithmetic::refusals::Refusal;
use arithmetic::settings::{Buffers, Settings};
use blockers::Blockers;
use stages::state::{Phase, Request, State, has_ended, is_free, size};
use vectors::vector::{IoVector, Segment};

// What next tells.
#[derive(Clone, Copy)]
pub enum Due {
    Waiting,
    Make(Request),
    Answer(u8),
}

// Where a request's piece lies.
#[derive(Clone, Copy)]
pub enum Piece {
    InData(Segment),
    InScratch(Segment),
}

// Whether the request of the job x in `slot` is out: it has one, and does not wait.
#[tactic(auto, unfolding(crate::specs::Dock::is_out_by))]
pub fn is_out(b: Blockers, x: State, slot: usize) -> bool
    ensures { result ≡ is_out_by b x slot }
{
    !is_free(x.phase) && !has_ended(x.phase) && !b.waits(slot)
}

// Whether the bytes of the job x lie in its share, and the shares in the scratch.
#[tactic(auto, unfolding(crate::specs::Next::is_sound_in))]
pub fn is_sound_in(x: State, settings: Settings, buffers: Buffers) -> bool
    ensures { result ≡ is_sound_in x settings buffers }
{
    x.is_sound(settings.bounce) & (settings.bounce <= buffers.scratch.length / 8)
}

// Whether they do, and its share, that of `slot`, lies in a scratch of `scratch_len` bytes. Here and in `piece_in`, `fill_share` and
// `hand_out_share` slot, settings and buffers are no struct: those of a `Dock` would be put into one for the call alone.
#[tactic(auto, unfolding(crate::specs::Next::is_sound_at))]
pub fn is_sound_at(
    slot: usize,
    x: State,
    settings: Settings,
    buffers: Buffers,
    scratch_len: usize,
) -> bool
    ensures { result ≡ is_sound_at slot x settings buffers scratch_len }
{
    (slot < SLOTS)
        & is_sound_in(x, settings, buffers)
        & (scratch_len as u64 == buffers.scratch.length)
}

// What the job x needs now, which waits or not and whose vector has `count` segments.
pub fn due_now(x: State, waits: bool, count: usize) -> Result<Due, Refusal>
    ensures { result ≡ due_in x waits count }
{
    if is_free(x.phase) {
        return Err(Refusal::Slot);
    }
    if has_ended(x.phase) {
        return Ok(Due::Answer(x.answer));
    }
    if waits {
        return Ok(Due::Waiting);
    }
    Ok(Due::Make(x.request(count)))
}

impl Dock {
    // What the job in `slot` needs now. Changes nothing.
    #[tactic(auto, unfolding(crate::specs::Next::next_of))]
    pub fn next(self, slot: usize, data: &[u8], scratch: &[u8]) -> Result<Due, Refusal>
        ensures { result ≡ next_of self slot (length «data».now) (length scratch.now) }
    {
        if !lent_fits(self.buffers, data.len(), scratch.len()) {
            return Err(Refusal::Buffer);
        }
        if SLOTS <= slot {
            return Err(Refusal::Slot);
        }
        let x = self.states[slot];
        let v = self.vectors[slot];
        let waiting = self.blockers.waits(slot);
        due_now(x, waiting, v.count)
    }
}

// n bytes of the scratch from `start` on, as a request's only piece.
fn in_scratch(i: usize, start: u64, n: u64) -> Result<Piece, Refusal>
    ensures { result ≡ in_scratch i start n }
{
    if i != 0 || n == 0 {
        return Err(Refusal::Slot);
    }
    Ok(Piece::InScratch(Segment {
        start: start as usize,
        length: n as usize,
    }))
}

// Segment i of a vector over `data_len` bytes.
#[tactic(auto, unfolding(vectors::specs::Vectors::is_valid))]
fn in_data(i: usize, data_len: usize, v: IoVector) -> Result<Piece, Refusal>
    ensures { result ≡ in_data i data_len v }
{
    if !v.is_valid(data_len) || v.count <= i {
        return Err(Refusal::Slot);
    }
    Ok(Piece::InData(v.segments[i]))
}

// Piece i of the request of the job x, whose share starts at `share` and has `bounce` bytes.
fn piece_of(
    x: State,
    v: IoVector,
    share: u64,
    bounce: u64,
    i: usize,
    data_len: usize,
) -> Result<Piece, Refusal>
    requires { (is_sound bounce x ≡ true) × (share + bounce < 2 ^ 64) }
    ensures { result ≡ piece_by x.phase share i data_len x v }
{
    let stage = x.stage;
    match x.phase {
        Phase::DirectRead | Phase::DirectWrite => in_data(i, data_len, v),
        Phase::BouncedRead | Phase::BouncedWrite => in_scratch(i, share, size(stage.request)),
        Phase::FirstRead => in_scratch(i, share, size(stage.first)),
        Phase::SecondRead => {
            let place = stage.second_at();
            in_scratch(i, share + place.0 as u64, size(stage.second))
        }
        Phase::Free | Phase::Ended | Phase::ZeroRequest | Phase::DiscardRequest => {
            Err(Refusal::Slot)
        }
    }
}

// Piece i of the request of the job x in `slot`, where its bytes lie in its share.
#[tactic(auto, unfolding(crate::specs::Next::piece_in))]
pub fn piece_in(
    slot: usize,
    settings: Settings,
    buffers: Buffers,
    x: State,
    v: IoVector,
    i: usize,
    data_len: usize,
) -> Result<Piece, Refusal>
    ensures { result ≡ piece_in slot settings buffers x v i data_len }
{
    if SLOTS <= slot {
        return Err(Refusal::Slot);
    }
    if !is_sound_in(x, settings, buffers) {
        return Err(Refusal::Slot);
    }
    let share = slot as u64 * settings.bounce;
    piece_of(x, v, share, settings.bounce, i, data_len)
}

// The n bytes of s from `start` on; none where they go past its end. The two forms, here and below, are one for `&` and one for `&mut`:
// no function is generic over that.
#[tactic(auto, unfolding(crate::specs::Next::part_of))]
fn part<'a>(s: &'a [u8], start: usize, n: usize) -> &'a [u8]
    ensures { result.now ≡ part_of s.now start n }
{
    s.get(start..start.saturating_add(n)).unwrap_or_default()
}

#[tactic(auto, unfolding(crate::specs::Next::part_of))]
fn part_mut<'a>(s: &'a mut [u8], start: usize, n: usize) -> &'a mut [u8]
    ensures { result.now ≡ part_of s.old start n }
{
    s.get_mut(start..start.saturating_add(n))
        .unwrap_or_default()
}

// The part of the data or the scratch where a piece lies: empty for a refusal, since no piece is empty.
fn part_at<'a>(place: Result<Piece, Refusal>, data: &'a [u8], scratch: &'a [u8]) -> &'a [u8]
    ensures { result.now ≡ bytes_at place «data».now scratch.now }
{
    match place {
        Ok(Piece::InData(s)) => part(data, s.start, s.length),
        Ok(Piece::InScratch(s)) => part(scratch, s.start, s.length),
        Err(_) => part(data, 0, 0),
    }
}

fn part_mut_at<'a>(
    place: Result<Piece, Refusal>,
    data: &'a mut [u8],
    scratch: &'a mut [u8],
) -> &'a mut [u8]
    ensures { result.now ≡ bytes_at place «data».old scratch.old }
{
    match place {
        Ok(Piece::InData(s)) => part_mut(data, s.start, s.length),
        Ok(Piece::InScratch(s)) => part_mut(scratch, s.start, s.length),
        Err(_) => part_mut(data, 0, 0),
    }
}

impl Dock {
    // Where piece i of the request that is out in `slot` lies.
    #[tactic(auto, unfolding(crate::specs::Next::piece_of, crate::specs::Dock::is_out))]
    fn place(
        &self,
        slot: usize,
        i: usize,
        data_len: usize,
        scratch_len: usize,
    ) -> Result<Piece, Refusal>
        ensures { result ≡ piece_of self.now slot i data_len scratch_len }
    {
        if !lent_fits(self.buffers, data_len, scratch_len) {
            return Err(Refusal::Buffer);
        }
        if SLOTS <= slot {
            return Err(Refusal::Slot);
        }
        let x = self.states[slot];
        if !is_out(self.blockers, x, slot) {
            return Err(Refusal::Slot);
        }
        let v = self.vectors[slot];
        piece_in(slot, self.settings, self.buffers, x, v, i, data_len)
    }

    // The same, with the dock by value as the other calls take it.
    pub fn piece_place(
        self,
        slot: usize,
        i: usize,
        data_len: usize,
        scratch_len: usize,
    ) -> Result<Piece, Refusal>
        ensures { result ≡ piece_of self slot i data_len scratch_len }
    {
        self.place(slot, i, data_len, scratch_len)
    }

    // Piece i of the request that is out in `slot`, for the store to write; empty where `piece_place` refuses.
    #[tactic(auto, unfolding(crate::specs::Next::piece_bytes))]
    pub fn piece<'a>(self, slot: usize, i: usize, data: &'a [u8], scratch: &'a [u8]) -> &'a [u8]
        ensures { result.now ≡ piece_bytes self slot i «data».now scratch.now }
    {
        let place = self.place(slot, i, data.len(), scratch.len());
        part_at(place, data, scratch)
    }

    // Piece i of the request that is out in `slot`, for the store to read into; empty where `piece_place` refuses.
    #[tactic(auto, unfolding(crate::specs::Next::piece_bytes))]
    pub fn piece_mut<'a>(
        self,
        slot: usize,
        i: usize,
        data: &'a mut [u8],
        scratch: &'a mut [u8],
    ) -> &'a mut [u8]
        ensures { result.now ≡ piece_bytes self slot i «data».old scratch.old }
    {
        let place = self.place(slot, i, data.len(), scratch.len());
        part_mut_at(place, data, scratch)
    }
}
