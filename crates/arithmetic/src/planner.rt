// pure_write_full_zeroes as a plan: how many chunks it writes, and which (imago: storage/mod.rs).
ghost use Rattle.std.specs.Prelude.{true, ◌≡◌, ◌+◌, ◌<◌};
ghost use Rattle.arithmetic.specs.Rounding.{fits};
ghost use Rattle.arithmetic.specs.Planner.{plan_outcome, chunk_count, planned_chunk, count_of, planned_of};

use crate::offsets::{LARGEST, Range, StoreOffset, is_multiple};
use crate::refusals::Refusal;
use crate::settings::Settings;

// Whether there is a plan: 201, then 210, then 207.
#[tactic(auto, unfolding(crate::specs::Planner::plan_outcome))]
fn check(offset: StoreOffset, length: u64, settings: Settings) -> Result<(), Refusal>
    ensures { result ≡ plan_outcome settings offset length }
{
    if !settings.is_fit() {
        return Err(Refusal::Unfit);
    }
    let align = settings.align;
    let r = align.req;
    let at = offset.0;
    let starts = is_multiple(at, r);
    let ends = is_multiple(length, r);
    if !(starts & ends) {
        return Err(Refusal::Unaligned);
    }
    if !(length <= LARGEST - at) {
        return Err(Refusal::Overflow);
    }
    Ok(())
}

fn chunk_count(n: u64, bounce: u64) -> u64
    requires { 0 < bounce }
    ensures { result ≡ chunk_count bounce n }
{
    let full = n / bounce;
    if n % bounce == 0 { full } else { full + 1 }
}

// How many chunks pure_write_full_zeroes writes for `length` bytes at `offset`.
#[tactic(auto, unfolding(crate::specs::Planner::count_of))]
pub fn count_chunks(offset: StoreOffset, length: u64, settings: Settings) -> Result<u64, Refusal>
    ensures { result ≡ count_of settings offset length }
{
    check(offset, length, settings)?;
    Ok(chunk_count(length, settings.bounce))
}

// Chunk i of a range of n bytes that fits.
#[tactic(auto, unfolding(crate::specs::Planner::planned_chunk))]
fn chunk_at(at: u64, n: u64, bounce: u64, i: u64) -> Range
    requires { (0 < bounce) × (fits (at + n) ≡ true) }
    ensures { result ≡ planned_chunk bounce at n i }
{
    let full = n / bounce;
    if full < i {
        let end = at + n;
        return Range {
            start: StoreOffset(end),
            end: StoreOffset(end),
        };
    }
    let skipped = i * bounce;
    let length = (n - skipped).min(bounce);
    let start = at + skipped;
    let end = start + length;
    Range {
        start: StoreOffset(start),
        end: StoreOffset(end),
    }
}

// Chunk i; past the last one an empty range at the end.
#[tactic(auto, unfolding(crate::specs::Planner::planned_of))]
pub fn plan_chunk(
    offset: StoreOffset,
    length: u64,
    settings: Settings,
    i: u64,
) -> Result<Range, Refusal>
    ensures { result ≡ planned_of settings offset length i }
{
    check(offset, length, settings)?;
    Ok(chunk_at(offset.0, length, settings.bounce, i))
}
