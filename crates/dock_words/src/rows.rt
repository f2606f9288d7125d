// The rows in which a dock stands in words, one of each kind for a slot. They lie one after the other: to C, 88, 144 and 272 words.
use dock::dock::SLOTS;

// Of the dock: alignments and bounce buffer length, then address and length of the data and of the scratch.
pub type SettingRow = [u64; 9];

// Of a blocker: kind, start, end and the 8 notes.
pub type BlockerRow = [u64; 11];

pub type BlockerRows = [BlockerRow; SLOTS];

// Of a state: phase, answer, job, course, and 14 words of its ranges and its stage.
pub type StateRow = [u64; 18];

pub type StateRows = [StateRow; SLOTS];

// Of a vector: count, total, start and length of each of the 16 segments.
pub type VectorRow = [u64; 34];

pub type VectorRows = [VectorRow; SLOTS];
