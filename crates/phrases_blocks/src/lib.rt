#![tactic(auto)]
// Standard input answered on standard output, block by block.
ghost use Rattle.std.specs.Prelude.{◌≡◌, true, ◌≤◌, length};
ghost use Rattle.base.specs.Room.{line_room};
ghost use Rattle.phrases_lines.specs.Held.{is_line};

use phrases_lines::{HELD, Line};
use std::io;
use std::io::{Read, Stdin, Stdout, Write};

// How many bytes are read at a time, and how many of the answers are written at a time: so many that the calls cost little beside the answers.
const BLOCK: usize = 65536;

// Feeds one block, and writes what comes of it as often as out is full.
fn pass(block: &[u8], line: &mut Line, out: &mut [u8], output: &mut Stdout) -> io::Result<()>
    requires { line_room ≤ length out.old }
    ensures line_after { (length line.new ≤ 513) × (is_line line.new ≡ true) }
{
    // A line is held before the first turn too.
    let held = line.bytes();
    prove!(held.len() <= HELD);
    let mut rest = block;
    while !rest.is_empty() {
        let fed = phrases_lines::feed(rest, line, out);
        output.write_all(&out[..fed.used])?;
        rest = &rest[fed.at..];
    }
    Ok(())
}

// Reads and passes on until the input ends. A proved loop has to end, so it counts its turns.
fn passes(input: &mut Stdin, line: &mut Line, out: &mut [u8], output: &mut Stdout) -> io::Result<()>
    requires { line_room ≤ length out.old }
    ensures { (length line.new ≤ 513) × (is_line line.new ≡ true) }
{
    let held = line.bytes();
    prove!(held.len() <= HELD);
    let mut block = [0u8; BLOCK];
    for _ in 0..u64::MAX {
        let n = input.read(&mut block)?;
        if n == 0 {
            break;
        }
        pass(&block[..n], line, out, output)?;
    }
    Ok(())
}

// Answers every line of standard input.
pub fn answer_input(rt: &HostRuntime) -> io::Result<()> {
    let mut input = rt.stdin();
    let mut output = rt.stdout();
    let mut line = Line::new();
    let mut out = [0u8; BLOCK];
    passes(&mut input, &mut line, &mut out, &mut output)?;
    let used = phrases_lines::last(line.bytes(), &mut out);
    output.write_all(&out[..used])
}
