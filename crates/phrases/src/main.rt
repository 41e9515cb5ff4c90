#![tactic(auto)]
// The program phrases: a line of standard input is a form, and is answered by a line.
use std::io;

fn main(rt: HostRuntime) -> io::Result<()> {
    phrases_blocks::answer_input(&rt)
}
