// Runs the vectors' calls on a list of cases, one line a case.
#![tactic(auto)]

mod show; // what is printed
mod edits; // validity, push, insert, append
mod splits; // split_at, split_tail_at
mod copies; // copies, fill, overlap
mod aligned; // is_aligned

use std::io;

fn main(rt: HostRuntime) -> io::Result<()> {
    edits::first(&rt)?;
    edits::segment_limits(&rt)?;
    edits::count_limits(&rt)?;
    edits::total_limits(&rt)?;
    edits::inserts(&rt)?;
    edits::joins(&rt)?;
    edits::high_joins(&rt)?;
    edits::insert_joins(&rt)?;
    edits::appends(&rt)?;
    edits::values(&rt)?;
    splits::all(&rt)?;
    splits::edges(&rt)?;
    copies::into_slice(&rt)?;
    copies::from_slice(&rt)?;
    copies::fills(&rt)?;
    copies::owned(&rt)?;
    copies::overlaps(&rt)?;
    copies::past_the_end(&rt)?;
    copies::overlaps_itself(&rt)?;
    aligned::answers(&rt)?;
    aligned::lengths(&rt)?;
    aligned::halves(&rt)
}
