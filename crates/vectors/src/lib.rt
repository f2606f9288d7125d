// Layer 2: I/O vectors over the lent data (imago: impl_io_vector! of io_buffers.rs), gather and scatter.
#![tactic(auto)]

pub mod segments; // where a vector stands, and whether it is one over the data
pub mod vector; // segments, push, insert, append
pub mod split; // split_at, split_tail_at
pub mod bytes; // copies into and out of a vector's segments, fill
pub mod overlap; // which vectors share a byte
pub mod alignment; // whether a vector is aligned
pub mod words; // a vector in 34 words
