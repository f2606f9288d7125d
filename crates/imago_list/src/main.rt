// Replays the fixed list on standard input: imago's own trace of it is the file stdout, which the check compares with what this writes.
// The list was made by `oracle fixed` (oracle/README.md, "The fixed list").
#![tactic(auto)]

use std::io;

fn main(rt: HostRuntime) -> io::Result<()> {
    replay_run::replay_input(&rt)
}
