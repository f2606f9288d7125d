// Layer 4, first half: what one job does, by value. A job runs in stages; a stage has one asked range, one blocker and one or
// more requests. All decisions are here, on one small state without arrays; the dock picks a state, steps it, and stores it.
#![tactic(auto)]

pub mod state; // phases, the state of a job, the request that is out
pub mod plan; // the first stage of a job, and a write of zeroes over a range
pub mod told; // what a told code leads to
