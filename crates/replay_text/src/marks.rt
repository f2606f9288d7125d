// What became of the request in each slot.
use dock::dock::SLOTS;

// A request is shown when it is due, then carried out, then told.
#[derive(Clone, Copy, PartialEq, Eq)]
pub enum Mark {
    New, // not shown yet, or no request
    Shown,
    Carried(u8), // with that code
}

// The mark of each slot.
#[derive(Clone, Copy)]
pub struct Marks {
    of: [Mark; SLOTS],
}

impl Marks {
    // A new dock has no request.
    pub fn new() -> Marks {
        Marks {
            of: [Mark::New; SLOTS],
        }
    }

    pub fn at(&self, slot: usize) -> Mark {
        self.of.get(slot).copied().unwrap_or(Mark::New)
    }

    // Nothing where there is no such slot.
    pub fn set(&mut self, slot: usize, mark: Mark) {
        if let Some(m) = self.of.get_mut(slot) {
            *m = mark;
        }
    }

    // A request that was carried out stays so.
    pub fn show(&mut self, slot: usize) {
        if self.at(slot) == Mark::New {
            self.set(slot, Mark::Shown);
        }
    }
}
