// The dock in words: separately lent arrays of 64-bit words, the form in which a host can hold it. A call reads one slot's rows into
// the by-value structs, steps them by the functions of crate dock, and writes the rows back; blockers are worked on in place. What words
// mean: specs/View.antt. Public is `arrays` alone.
#![tactic(auto)]

mod tags; // words that stand for variants and ranges
mod rows; // the rows of a slot, and of the eight
mod state_words; // states, and the lowest free slot
mod setting_words; // settings and buffers
mod blocker_words; // blockers, in place
mod blocker_steps; // the blocker of one job
mod told_words; // what a tell does to one slot
mod begun_words; // what a begin does to one slot
pub mod arrays; // the calls
