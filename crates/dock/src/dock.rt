// The dock by value, and what it has in its slots.
ghost use Rattle.std.specs.Prelude.{◌≡◌};
ghost use Rattle.dock.specs.Dock.{lent_fits, lent_of, is_read_job, meets_of, meets_itself, first_free};

use arithmetic::refusals::Refusal;
use arithmetic::settings::{Buffers, Settings, check_opening};
use blockers::Blockers;
use stages::state::{Job, State, is_free};
use vectors::vector::IoVector;

#[derive(Clone, Copy)]
pub struct Dock {
    pub settings: Settings,
    pub buffers: Buffers,
    pub blockers: Blockers,
    pub states: [State; 8],
    pub vectors: [IoVector; 8],
}

pub const SLOTS: usize = 8;

// Whether the lent buffers have their lengths of opening: false is refusal 205.
#[tactic(auto, unfolding(crate::specs::Dock::lent_fits))]
pub fn lent_fits(b: Buffers, data_len: usize, scratch_len: usize) -> bool
    ensures { result ≡ lent_fits b data_len scratch_len }
{
    (data_len as u64 == b.data.length) & (scratch_len as u64 == b.scratch.length)
}

// What a begin is lent: settings and buffers that opening accepts, with their lengths of opening.
#[tactic(auto, unfolding(crate::specs::Dock::lent_of))]
pub fn check_lent(
    s: Settings,
    b: Buffers,
    data_len: usize,
    scratch_len: usize,
) -> Result<(), Refusal>
    ensures { result ≡ lent_of s b data_len scratch_len }
{
    check_opening(s, b)?;
    if !lent_fits(b, data_len, scratch_len) {
        return Err(Refusal::Buffer);
    }
    Ok(())
}

pub fn is_read_job(j: Job) -> bool
    ensures { result ≡ is_read_job j }
{
    j == Job::Read
}

// Whether a job's vector meets that of another job, of which one reads.
#[tactic(auto, unfolding(crate::specs::Dock::meets_of))]
pub fn meets(x: State, w: IoVector, j: Job, v: IoVector) -> bool
    ensures { result ≡ meets_of x w j v }
{
    !is_free(x.phase) && (is_read_job(j) | is_read_job(x.job)) && v.overlaps(w)
}

// Whether a vector that is read into meets itself.
pub fn meets_itself(j: Job, v: IoVector) -> bool
    ensures { result ≡ meets_itself j v }
{
    is_read_job(j) && v.overlaps_itself()
}

// The lowest free slot; 8 where there is none, as `decide` takes it (`decided_of`).
pub fn first_free(states: [State; 8]) -> usize
    ensures { result ≡ first_free states }
{
    for (i, x) in states.iter().enumerate() {
        if is_free(x.phase) {
            return i;
        }
    }
    SLOTS
}
