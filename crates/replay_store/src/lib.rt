// The stand-in store, an array of bytes: past its end reads give zeroes, and writes are dropped.
// What a code leaves open, the choice of its carry decides by the offset o on the store: bit o mod 64 says whether the byte
// there is new, byte o mod 8, the lowest first, what it is where it may be anything.
#![tactic(auto)]

use dock::dock::Dock;
use dock::next::Due;
use stages::state::{Kind, Request};

// No request is out in the slot.
#[derive(Clone, Copy)]
pub struct NoRequest;

// How the store carries a request out: with a code, and the choice that the script makes, if it makes one.
#[derive(Clone, Copy)]
pub struct Act {
    pub code: u8,
    pub choice: Option<u64>,
}

// The choice by which every byte is new.
const ALL: u64 = u64::MAX;

// Whether a choice makes the byte at offset o new.
fn is_new(choice: u64, o: u64) -> bool {
    (choice >> (o % 64)) % 2 == 1
}

// The byte of a choice at offset o.
fn choice_at(choice: u64, o: u64) -> u8 {
    choice.to_le_bytes()[(o % 8) as usize]
}

// The byte at offset o; 0 past the end.
fn byte_at(store: &[u8], o: u64) -> u8 {
    store.get(o as usize).copied().unwrap_or(0)
}

// The byte at offset o becomes b, where it is new; past the end it is dropped.
fn put(store: &mut [u8], o: u64, new: u64, b: u8) {
    if is_new(new, o)
        && let Some(byte) = store.get_mut(o as usize)
    {
        *byte = b;
    }
}

// Of n bytes from `at` on, each becomes what `content` gives at its offset, or stays where that is none.
fn change<F: Fn(u64) -> Option<u8>>(bytes: &mut [u8], at: u64, n: u64, content: F)
    requires { F.IsAlwaysCallable content }
{
    let end = at.saturating_add(n).min(bytes.len() as u64);
    for o in at..end {
        if let Some(b) = content(o) {
            bytes[o as usize] = b;
        }
    }
}

// n bytes from `at` on become b.
pub fn fill(bytes: &mut [u8], at: u64, n: u64, b: u8) {
    change(bytes, at, n, |_| Some(b));
}

impl Act {
    // What the choice leaves open is 0 where the script makes none.
    fn bits(self) -> u64 {
        self.choice.unwrap_or(0)
    }

    // Where a write or zero request makes bytes new: all with code 0, those of the choice with another.
    fn new_bytes(self) -> u64 {
        if self.code == 0 { ALL } else { self.bits() }
    }

    // What a read leaves for offset o: with code 0 the store's byte, with another that of the choice.
    fn read_byte(self, store: &[u8], o: u64) -> u8 {
        if self.code == 0 {
            byte_at(store, o)
        } else {
            choice_at(self.bits(), o)
        }
    }

    // A read of the store from `at` on into a piece. A request ends below 2^64, so no offset of it is cut off.
    fn fetch(self, store: &[u8], at: u64, piece: &mut [u8]) {
        for (i, byte) in piece.iter_mut().enumerate() {
            *byte = self.read_byte(store, at.saturating_add(i as u64));
        }
    }

    // A write of a piece to the store from `at` on.
    fn keep(self, store: &mut [u8], at: u64, piece: &[u8]) {
        for (i, b) in piece.iter().enumerate() {
            put(store, at.saturating_add(i as u64), self.new_bytes(), *b);
        }
    }

    // What a zero or discard request does to the store: a read or a write does it by its pieces.
    fn overwrite(self, q: Request, store: &mut [u8]) {
        let at = q.offset.0;
        match q.kind {
            Kind::Zero | Kind::AllocatedZero => {
                let new = self.new_bytes();
                change(store, at, q.length, |o| is_new(new, o).then_some(0))
            }
            Kind::Discard => {
                let choice = self.choice;
                change(store, at, q.length, |o| choice.map(|c| choice_at(c, o)))
            }
            Kind::Read | Kind::Write => {}
        }
    }
}

// Carries out the request that is out in `slot`: its pieces, in order, of which a zero or discard request has none, and the rest.
pub fn carry(
    dock: &Dock,
    slot: usize,
    act: Act,
    store: &mut [u8],
    data: &mut [u8],
    scratch: &mut [u8],
) -> Result<(), NoRequest> {
    let Ok(Due::Make(q)) = dock.next(slot, data, scratch) else {
        return Err(NoRequest);
    };
    let mut at = q.offset.0;
    for i in 0..q.segments {
        let piece = dock.piece_mut(slot, i, data, scratch);
        match q.kind {
            Kind::Read => act.fetch(store, at, piece),
            _ => act.keep(store, at, piece),
        }
        at = at.saturating_add(piece.len() as u64);
    }
    act.overwrite(q, store);
    Ok(())
}
