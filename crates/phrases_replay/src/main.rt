#![tactic(auto)]
// The program phrases again, for the gate to run on a list of lines: `stdin`, with the answers in `stdout`, the phrases as the published Rust says
// them. Both are made by tools/make_replay.sh.
use std::io;

fn main(rt: HostRuntime) -> io::Result<()> {
    phrases_blocks::answer_input(&rt)
}
