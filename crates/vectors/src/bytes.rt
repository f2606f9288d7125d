// The bytes of a vector's segments, copied into a slice and back, and filled.
ghost use Rattle.std.specs.Prelude.{◌≡◌, true, ◌++◌, length, take, drop, replicate};
ghost use Rattle.vectors.specs.Vectors.{segments_of, is_valid, bytes_of, scatter_of, fill_of, copies, outcome_of};
ghost use Rattle.vectors.specs.Vectors.{copied_into, copied_from, filled_with};

use crate::segments::{Segments, is_valid};
use crate::vector::IoVector;
use arithmetic::refusals::Refusal;

// The front of `part` becomes that of `source`: as many bytes as both have.
pub fn copy_bytes(part: &mut [u8], source: &[u8])
    ensures { part.new ≡ take (length part.old) source.now
        ++ drop (length source.now) part.old }
{
    let n = part.len().min(source.len());
    part[..n].copy_from_slice(&source[..n]);
}

// Every byte of `part` becomes `value`.
pub fn fill_bytes(part: &mut [u8], value: u8)
    ensures { part.new ≡ replicate (length part.old) value }
{
    part.fill(value);
}

// `slice` becomes the bytes of the segments, joined in order.
#[tactic(auto, using(crate::proofs::Moving::gather_fits))]
fn gather<V: Segments>(v: &V, data: &[u8], slice: &mut [u8])
    requires { copies «data».now (V.vector v.now) (length slice.old) ≡ true }
    ensures { slice.new ≡ bytes_of «data».now (segments_of (V.vector v.now)) }
{
    let mut filled = 0usize;
    for i in 0..v.buffer_count() {
        let p = v.segment_at(i);
        let next = filled + p.length;
        copy_bytes(&mut slice[filled..next], &data[p.start..p.start + p.length]);
        filled = next;
    }
}

// The bytes of `slice` go into the segments, each filled before the next. The walk is gather's, with what is read and what is
// written turned round: one walk for both would hand two parts of each step to a closure, which is no shorter.
#[tactic(auto, using(crate::proofs::Moving::scatter_fits))]
fn scatter<V: Segments>(v: &V, data: &mut [u8], slice: &[u8])
    requires { copies «data».old (V.vector v.now) (length slice.now) ≡ true }
    ensures { «data».new
        ≡ scatter_of «data».old (segments_of (V.vector v.now)) slice.now }
{
    let mut taken = 0usize;
    for i in 0..v.buffer_count() {
        let p = v.segment_at(i);
        let next = taken + p.length;
        copy_bytes(&mut data[p.start..p.start + p.length], &slice[taken..next]);
        taken = next;
    }
}

// Every byte of the segments becomes `value`.
#[tactic(auto, using(crate::proofs::Moving::fill_fits))]
fn fill_segments<V: Segments>(v: &V, data: &mut [u8], value: u8)
    requires { is_valid (length «data».old) (V.vector v.now) ≡ true }
    ensures { «data».new
        ≡ fill_of «data».old (segments_of (V.vector v.now)) value }
{
    for i in 0..v.buffer_count() {
        let p = v.segment_at(i);
        fill_bytes(&mut data[p.start..p.start + p.length], value);
    }
}

// Whether a slice of that length can be copied to or from the vector's segments.
#[tactic(auto, unfolding(crate::specs::Vectors::copies))]
fn copies<V: Segments>(v: &V, data: &[u8], len: usize) -> bool
    ensures { result ≡ copies «data».now (V.vector v.now) len }
{
    is_valid(v, data.len()) && len as u64 == v.total()
}

// `slice`, as long as the vector, becomes its bytes. Refused where it is of another length.
pub fn copy_into_slice<V: Segments>(v: &V, data: &[u8], slice: &mut [u8]) -> Result<(), Refusal>
    ensures outcome { result
        ≡ outcome_of (copies «data».now (V.vector v.now) (length slice.old)) }
    ensures bytes { slice.new
        ≡ copied_into «data».now (V.vector v.now) slice.old }
{
    if !copies(v, data, slice.len()) {
        return Err(Refusal::Segment);
    }
    gather(v, data, slice);
    Ok(())
}

// The bytes of `slice`, as long as the vector, go into its segments in order: where these overlap, the later wins. Refused
// where it is of another length.
pub fn copy_from_slice<V: Segments>(v: &V, data: &mut [u8], slice: &[u8]) -> Result<(), Refusal>
    ensures outcome { result
        ≡ outcome_of (copies «data».old (V.vector v.now) (length slice.now)) }
    ensures bytes { «data».new
        ≡ copied_from «data».old (V.vector v.now) slice.now }
{
    if !copies(v, data, slice.len()) {
        return Err(Refusal::Segment);
    }
    scatter(v, data, slice);
    Ok(())
}

impl IoVector {
    // `slice`, as long as the vector, becomes its bytes. Refused where it is of another length.
    pub fn copy_into_slice(self, data: &[u8], slice: &mut [u8]) -> Result<(), Refusal>
        ensures outcome { result ≡ outcome_of (copies «data».now self (length slice.old)) }
        ensures bytes { slice.new ≡ copied_into «data».now self slice.old }
    {
        copy_into_slice(&self, data, slice)
    }

    // The bytes of `slice`, as long as the vector, go into its segments in order: where these overlap, the later wins.
    // Refused where it is of another length.
    pub fn copy_from_slice(self, data: &mut [u8], slice: &[u8]) -> Result<(), Refusal>
        ensures outcome { result ≡ outcome_of (copies «data».old self (length slice.now)) }
        ensures bytes { «data».new ≡ copied_from «data».old self slice.now }
    {
        copy_from_slice(&self, data, slice)
    }

    // Every byte of the segments becomes `value`.
    pub fn fill(self, data: &mut [u8], value: u8) -> Result<(), Refusal>
        ensures outcome { result ≡ outcome_of (is_valid (length «data».old) self) }
        ensures bytes { «data».new ≡ filled_with «data».old self value }
    {
        if !is_valid(&self, data.len()) {
            return Err(Refusal::Segment);
        }
        fill_segments(&self, data, value);
        Ok(())
    }

    // A copy in a lent `buffer`, as long as the vector: there is no allocation. Refused where it is of another length.
    pub fn try_into_owned(self, data: &[u8], buffer: &mut [u8]) -> Result<(), Refusal>
        ensures outcome { result ≡ outcome_of (copies «data».now self (length buffer.old)) }
        ensures bytes { buffer.new ≡ copied_into «data».now self buffer.old }
    {
        self.copy_into_slice(data, buffer)
    }
}
