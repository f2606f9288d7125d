// Layer 4: the dock. Byte ranges over an aligned drive: begin, next, tell, collect; up to eight jobs at once.
#![tactic(auto)]

pub mod dock; // the dock, and what it has in a slot
pub mod bytes; // copies between the data and a slot's share of the scratch
pub mod open; // opening, with alignments or by drive profile
pub mod begin; // begin of a read, a write, zeroes, a discard
pub mod next; // what is due, and the pieces of a request
pub mod tell; // tell and collect
pub mod numbers; // document 01's number of each answer
