// What a replay of events reads and prints: lines of its script, and its trace.
#![tactic(auto)]

pub mod marks; // what became of the request in each slot
pub mod script; // a line of the script, taken apart
pub mod trace; // what is printed
