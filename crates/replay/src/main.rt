// Replays a script of events on standard input, and writes a trace. What a script and a trace have: the head of
// crates/replay_run/src/lib.rt.
#![tactic(auto)]

use std::io;

fn main(rt: HostRuntime) -> io::Result<()> {
    replay_run::replay_input(&rt)
}
