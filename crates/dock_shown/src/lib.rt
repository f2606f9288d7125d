// The combined calls on a dock in words: one for each request.
#![tactic(auto)]

pub mod shown;
