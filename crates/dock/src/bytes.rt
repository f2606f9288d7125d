// What is copied between the data and a slot's share of the scratch.
ghost use Rattle.std.specs.Prelude.{◌≡◌, ◌+◌, ◌*◌, ◌≤◌, length, Some, None};
ghost use Rattle.arithmetic.specs.Rounding.{pick};
ghost use Rattle.dock.specs.Begin.{is_write_job, is_bounced_write, fills, merged_at, filled, InShare};
ghost use Rattle.dock.specs.Tell.{is_bounced_read, hands, copied_at, handed};
ghost use Rattle.dock.specs.Slots.{filled_share, handed_share};
ghost use Rattle.dock.specs.Next.{is_sound_at};

use crate::next::is_sound_at;
use arithmetic::refusals::Refusal;
use arithmetic::settings::{Buffers, Settings};
use stages::state::{Job, Phase, State, size};
use vectors::bytes::fill_bytes;
use vectors::vector::IoVector;

fn is_write_job(j: Job) -> bool
    ensures { result ≡ is_write_job j }
{
    j == Job::Write
}

// Not its first or second read: the scratch is filled once the reads are done.
pub fn is_bounced_write(p: Phase) -> bool
    ensures { result ≡ is_bounced_write p }
{
    p == Phase::BouncedWrite
}

pub fn is_bounced_read(p: Phase) -> bool
    ensures { result ≡ is_bounced_read p }
{
    p == Phase::BouncedRead
}

// n bytes of what the job writes, its vector's or zeroes, into the scratch from `start` on. Here and in `copy_out` the vector's answer is
// taken apart by `let .. else`, as document 01 has it.
#[tactic(auto, unfolding(crate::specs::Begin::merged_at, crate::specs::Begin::source_of, crate::specs::Begin::source_fits))]
fn merge(
    start: usize,
    n: usize,
    job: Job,
    v: IoVector,
    data: &[u8],
    scratch: &mut [u8],
) -> Result<(), Refusal>
    requires { start + n ≤ length scratch.old }
    ensures { fills result scratch.new ≡ merged_at start n job v «data».now scratch.old }
{
    let end = start + n;
    if is_write_job(job) {
        let copied = v.copy_into_slice(data, &mut scratch[start..end]);
        let Ok(()) = copied else {
            return copied; // no vector over the data, or of another length: the scratch is as it was
        };
        return Ok(());
    }
    fill_bytes(&mut scratch[start..end], 0);
    Ok(())
}

// n bytes of the scratch from `start` on into the vector's segments.
#[tactic(auto, unfolding(crate::specs::Tell::copied_at))]
fn copy_out(
    start: usize,
    n: usize,
    v: IoVector,
    data: &mut [u8],
    scratch: &[u8],
) -> Result<(), Refusal>
    requires { start + n ≤ length scratch.now }
    ensures { hands result «data».new ≡ copied_at start n v «data».old scratch.now }
{
    let end = start + n;
    let copied = v.copy_from_slice(data, &scratch[start..end]);
    let Ok(()) = copied else {
        return copied; // no vector over the data, or of another length: the data is as it was
    };
    Ok(())
}

// Where a job is: its slot, where the slot's share of the scratch starts, and its vector, as long as it runs. That its bytes lie in the
// scratch is asked by each method below (`InShare`) and is no invariant: the scratch comes with each call.
#[derive(Clone, Copy)]
pub(crate) struct Place {
    pub slot: usize,
    pub share: usize,
    pub vector: IoVector,
}

impl Place {
    // As the job comes to its write from the bounce buffer, the asked part of its share is filled.
    #[tactic(auto, unfolding(crate::specs::Begin::filled))]
    pub(crate) fn fill(&self, x: State, data: &[u8], scratch: &mut [u8]) -> Result<(), Refusal>
        requires { InShare self.now.share x (length scratch.old) }
        ensures { fills result scratch.new ≡ filled self.now.share x self.now.vector «data».now scratch.old }
    {
        if !is_bounced_write(x.phase) {
            return Ok(());
        }
        let start = self.share + x.stage.head.0;
        let n = size(x.stage.asked) as usize;
        merge(start, n, x.job, self.vector, data, scratch)
    }

    // As a padded read ends with 0, its asked bytes are copied out of its share.
    #[tactic(auto, unfolding(crate::specs::Tell::handed))]
    pub(crate) fn hand_out(
        &self,
        x: State,
        code: u8,
        data: &mut [u8],
        scratch: &[u8],
    ) -> Result<(), Refusal>
        requires { InShare self.now.share x (length scratch.now) }
        ensures { hands result «data».new ≡ handed self.now.share x code self.now.vector «data».old scratch.now }
    {
        if !is_bounced_read(x.phase) || code != 0 {
            return Ok(());
        }
        let start = self.share + x.stage.head.0;
        let n = size(x.stage.asked) as usize;
        copy_out(start, n, self.vector, data, scratch)
    }
}

// Where the share of `slot` starts, if the bytes of the job x lie in it and it lies in the scratch.
fn share_of(
    slot: usize,
    settings: Settings,
    buffers: Buffers,
    x: State,
    scratch_len: usize,
) -> Option<usize>
    ensures { result ≡ pick (is_sound_at slot x settings buffers scratch_len) (Some (slot * settings.bounce)) None }
{
    if !is_sound_at(slot, x, settings, buffers, scratch_len) {
        return None;
    }
    Some(slot * settings.bounce as usize)
}

// What `fill` does in the share of `slot`, for any job: refused (208) where its bytes do not lie there.
#[tactic(auto, unfolding(crate::specs::Slots::filled_share))]
pub fn fill_share(
    slot: usize,
    settings: Settings,
    buffers: Buffers,
    x: State,
    v: IoVector,
    data: &[u8],
    scratch: &mut [u8],
) -> Result<(), Refusal>
    ensures { fills result scratch.new ≡ filled_share slot settings buffers x v «data».now scratch.old }
{
    if !is_bounced_write(x.phase) {
        return Ok(());
    }
    let Some(share) = share_of(slot, settings, buffers, x, scratch.len()) else {
        return Err(Refusal::Slot);
    };
    let place = Place {
        slot,
        share,
        vector: v,
    };
    place.fill(x, data, scratch)
}

// What `hand_out` does with the share of `slot`, for any job: refused (208) where its bytes do not lie there.
#[tactic(auto, unfolding(crate::specs::Slots::handed_share))]
pub fn hand_out_share(
    slot: usize,
    settings: Settings,
    buffers: Buffers,
    x: State,
    code: u8,
    v: IoVector,
    data: &mut [u8],
    scratch: &[u8],
) -> Result<(), Refusal>
    ensures { hands result «data».new ≡ handed_share slot settings buffers x code v «data».old
        scratch.now }
{
    if !is_bounced_read(x.phase) || code != 0 {
        return Ok(());
    }
    let Some(share) = share_of(slot, settings, buffers, x, scratch.len()) else {
        return Err(Refusal::Slot);
    };
    let place = Place {
        slot,
        share,
        vector: v,
    };
    place.hand_out(x, code, data, scratch)
}
