// The house form of records (document 02, N3): bytes that are records one after the other, each a two-byte length of what follows, a
// two-byte kind and the body, little-endian. Here is what bytes start with; who reads them knows the kinds.
#![tactic(auto)]

ghost use Rattle.std.specs.Prelude.{◌≡◌, [], ◌∷◌};
ghost use Rattle.records.specs.Records.{little_endian, start_of};

// A record's kind, and how long its body is, which lies behind the four bytes of length and kind.
#[derive(Clone, Copy, PartialEq, Eq)]
pub struct Header {
    pub kind: u64,
    pub body: usize,
}

// What bytes start with is a record that is cut, or shorter than its kind.
#[derive(Clone, Copy, PartialEq, Eq)]
pub struct Broken;

// The number of two bytes.
pub fn u16_of(low: u8, high: u8) -> u64
    ensures { result ≡ little_endian (low ∷ high ∷ []) }
{
    u64::from(u16::from_le_bytes([low, high]))
}

// The number of four bytes.
pub fn u32_of(first: u8, second: u8, third: u8, fourth: u8) -> u64
    ensures { result ≡ little_endian (first ∷ second ∷ third ∷ fourth ∷ []) }
{
    u64::from(u32::from_le_bytes([first, second, third, fourth]))
}

// The record that the bytes start with: none where there are no bytes.
pub fn first_record(bytes: &[u8]) -> Result<Option<Header>, Broken>
    ensures { result ≡ start_of bytes.now }
{
    let n = bytes.len();
    if n == 0 {
        return Ok(None);
    }
    let [low, high, kind_low, kind_high, ..] = bytes else {
        return Err(Broken); // even a record without a body has length and kind
    };
    let length = u16_of(*low, *high) as usize;
    if length < 2 {
        return Err(Broken); // shorter than its kind
    }
    if n - 2 < length {
        return Err(Broken); // cut
    }
    Ok(Some(Header {
        kind: u16_of(*kind_low, *kind_high),
        body: length - 2,
    }))
}
