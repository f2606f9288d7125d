// Layer 1: alignments, offsets, padding, the cuts of zero and discard ranges, chunks, the planner.
#![tactic(auto)]

pub mod refusals; // the numbers 201 to 220
pub mod offsets; // offsets on the store and in a bounce buffer, ranges, sums that fit, rounding
pub mod settings; // alignments, drive profiles, what opening tests
pub mod padding; // direct or padded, the padded range, the reads of a padded write
pub mod zeroes; // cuts of zero and discard jobs, chunks of write_full_zeroes
pub mod planner; // pure_write_full_zeroes as a plan
