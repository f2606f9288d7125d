// Offsets that count from different zeros, ranges of the store, sums that fit 64 bits, rounding.
ghost use Rattle.std.specs.Prelude.{◌≡◌, ◌%◌, min};
ghost use Rattle.arithmetic.specs.Rounding.{sum_of, is_multiple, round_down, up_of};
ghost use Rattle.arithmetic.specs.Offsets.{in_buffer_of, on_store_of};

use crate::refusals::Refusal;

// A byte's place on the store.
#[derive(Clone, Copy)]
pub struct StoreOffset(pub u64);

// A byte's place in a bounce buffer.
#[derive(Clone, Copy)]
pub struct BufferOffset(pub usize);

// The bytes of the store from start up to, not including, end.
#[derive(Clone, Copy)]
pub struct Range {
    pub start: StoreOffset,
    pub end: StoreOffset,
}

pub const LARGEST: u64 = 0xffff_ffff_ffff_ffff;

impl StoreOffset {
    // The place of this byte in a buffer that holds the store from `start` on.
    #[tactic(auto, unfolding(crate::specs::Offsets::in_buffer_of))]
    pub fn in_buffer(self, start: StoreOffset) -> Result<BufferOffset, Refusal>
        ensures { result ≡ in_buffer_of self start }
    {
        let Some(inside) = self.0.checked_sub(start.0) else {
            return Err(Refusal::Overflow);
        };
        Ok(BufferOffset(inside as usize))
    }
}

impl BufferOffset {
    // The byte of the store at this place of a buffer that holds the store from `start` on.
    pub fn on_store(self, start: StoreOffset) -> Result<StoreOffset, Refusal>
        ensures { result ≡ on_store_of self start }
    {
        let Some(at) = start.0.checked_add(self.0 as u64) else {
            return Err(Refusal::Overflow);
        };
        Ok(StoreOffset(at))
    }
}

// x modulo r, by a mask where r is a power of two, as every alignment is. Modulo 0 it is x.
pub fn remainder(x: u64, r: u64) -> u64
    ensures { result ≡ x % r }
{
    if r == 0 {
        return x;
    }
    let mask = r - 1;
    if r & mask == 0 {
        return x & mask;
    }
    x % r
}

// The greatest multiple of r that is at most x.
#[tactic(auto, unfolding(crate::specs::Rounding::round_down))]
pub fn round_down(x: u64, r: u64) -> u64
    ensures { result ≡ round_down x r }
{
    x - remainder(x, r)
}

// The least multiple of r that is at least x.
pub fn round_up(x: u64, r: u64) -> Option<u64>
    ensures { result ≡ up_of x r }
{
    if r == 0 {
        return Some(0);
    }
    let Some(last) = x.checked_add(r - 1) else {
        return None;
    };
    Some(round_down(last, r))
}

#[tactic(auto, unfolding(crate::specs::Rounding::is_multiple))]
pub fn is_multiple(x: u64, r: u64) -> bool
    ensures { result ≡ is_multiple x r }
{
    remainder(x, r) == 0
}
