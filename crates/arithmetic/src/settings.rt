// Settings: the store's alignments, the bounce buffer's length, the lent buffers; what opening tests.
ghost use Rattle.std.specs.Prelude.{true, ◌≡◌, ◌+◌};
ghost use Rattle.arithmetic.specs.Rounding.{fits};
ghost use Rattle.arithmetic.specs.Settings.{is_alignment, length_align, alignments_fit, settings_fit, buffers_fit, opening_of, alignments};
ghost use Rattle.arithmetic.specs.Settings.{profile_of};

use crate::offsets::{LARGEST, is_multiple};
use crate::refusals::Refusal;

// Document 01's mem, req, zero, discard: M, R, Z, D.
#[derive(Clone, Copy)]
pub struct Alignments {
    pub mem: u64,
    pub req: u64,
    pub zero: u64,
    pub discard: u64,
}

// The alignments, and the length of one job's bounce buffer (document 01: the share).
#[derive(Clone, Copy)]
pub struct Settings {
    pub align: Alignments,
    pub bounce: u64,
}

// Address and length of a buffer that is lent.
#[derive(Clone, Copy)]
pub struct Lent {
    pub address: u64,
    pub length: u64,
}

// The buffers as opening fixes them.
#[derive(Clone, Copy)]
pub struct Buffers {
    pub data: Lent,
    pub scratch: Lent,
}

const MAX_ALIGNMENT: u64 = 65536;

const MAX_BOUNCE: u64 = 1048576;

const SLOTS: u64 = 8;

// Whether x is a power of two, which has no digit in common with the number before it, and at most 65,536.
#[tactic(auto, unfolding(crate::specs::Settings::is_alignment))]
fn is_alignment(x: u64) -> bool
    ensures { result ≡ is_alignment x }
{
    if x == 0 {
        return false;
    }
    (x & (x - 1) == 0) & (x <= MAX_ALIGNMENT)
}

impl Alignments {
    // L: the greater of the memory and the request alignment.
    #[tactic(auto, unfolding(crate::specs::Settings::length_align))]
    pub fn length_align(self) -> u64
        ensures { result ≡ length_align self }
    {
        self.mem.max(self.req)
    }

    #[tactic(auto, unfolding(crate::specs::Settings::alignments_fit))]
    pub fn is_fit(self) -> bool
        ensures { result ≡ alignments_fit self }
    {
        let mem = is_alignment(self.mem);
        let req = is_alignment(self.req);
        let zero = is_alignment(self.zero);
        let discard = is_alignment(self.discard);
        mem & req & zero & discard
    }
}

impl Settings {
    // Whether opening accepts the alignments and the bounce buffer's length: false is refusal 201.
    #[tactic(auto, unfolding(crate::specs::Settings::bounce_fits, crate::specs::Settings::settings_fit))]
    pub fn is_fit(self) -> bool
        ensures { result ≡ settings_fit self }
    {
        let align = self.align;
        let len = self.bounce;
        if !align.is_fit() {
            return false;
        }
        let l = align.length_align();
        let whole = is_multiple(len, l);
        whole & (2 * align.zero + 2 * l <= len) & (len <= MAX_BOUNCE)
    }
}

impl Lent {
    // Whether address plus length is at most 2^64 - 1.
    fn has_end(self) -> bool
        ensures { result ≡ fits (self.address + self.length) }
    {
        self.length <= LARGEST - self.address
    }
}

impl Buffers {
    #[tactic(auto, unfolding(crate::specs::Settings::buffers_fit))]
    fn is_fit(self, s: Settings) -> bool
        requires { settings_fit s ≡ true }
        ensures { result ≡ buffers_fit s self }
    {
        let align = s.align;
        let data = self.data;
        let scratch = self.scratch;
        let data_ends = data.has_end();
        let scratch_ends = scratch.has_end();
        let starts = is_multiple(scratch.address, align.mem);
        data_ends & scratch_ends & (SLOTS * s.bounce <= scratch.length) & starts
    }
}

// What opening answers: 201 for unfit settings, then 205 for unfit buffers.
#[tactic(auto, unfolding(crate::specs::Settings::opening_of))]
pub fn check_opening(s: Settings, b: Buffers) -> Result<(), Refusal>
    ensures { result ≡ opening_of s b }
{
    if !s.is_fit() {
        return Err(Refusal::Unfit);
    }
    if !b.is_fit(s) {
        return Err(Refusal::Buffer);
    }
    Ok(())
}

fn make_row(mem: u64, req: u64, zero: u64, discard: u64) -> Alignments
    ensures { result ≡ alignments mem req zero discard }
{
    Alignments {
        mem,
        req,
        zero,
        discard,
    }
}

// The alignments of a drive profile.
#[tactic(auto, unfolding(crate::specs::Settings::profile_of, crate::specs::Settings::profiles))]
pub fn drive_profile(index: usize) -> Result<Alignments, Refusal>
    ensures { result ≡ profile_of index }
{
    match index {
        0 => Ok(make_row(1, 1, 1, 1)),
        1 => Ok(make_row(1, 512, 512, 512)),
        2 => Ok(make_row(512, 512, 4096, 4096)),
        3 => Ok(make_row(4096, 4096, 4096, 65536)),
        4 => Ok(make_row(4096, 512, 512, 512)),
        5 => Ok(make_row(4096, 512, 4096, 65536)),
        _ => Err(Refusal::Unfit),
    }
}
