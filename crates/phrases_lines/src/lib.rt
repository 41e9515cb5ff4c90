#![tactic(auto)]
// The program over blocks of its input: a line is gathered, and answered at its end.
mod held; // held.rt: a line whose end has not come in

ghost use Rattle.std.specs.Prelude.{◌≡◌, true, [], ◌∷◌, ◌+◌, ◌≤◌, ◌<◌, length, take};
ghost use Rattle.base.specs.Buffer.{over};
ghost use Rattle.base.specs.Room.{line_room};
ghost use Rattle.phrases_lines.specs.Program.{program, Answered};
ghost use Rattle.phrases_lines.specs.Held.{is_line};

pub use held::{HELD, Line};

// How much room the next answer may need: `line_room`.
const ROOM: usize = 6881;

// How far a block was read, and how much was written.
#[derive(Clone, Copy)]
pub struct Fed {
    pub at: usize,
    pub used: usize,
}

// One byte, a block of one: at a line's end its answer is written over the front of out; any other byte joins the line.
fn take_byte(b: u8, line: &mut Line, out: &mut [u8]) -> usize
    requires { line_room ≤ length out.old }
    ensures bound { (length line.new ≤ 513) × (result ≤ length out.old) }
    ensures line_after { is_line line.new ≡ true }
    ensures answered { Answered line.old (b ∷ []) (take result out.new) line.new }
{
    if b == b'\n' {
        let written = phrases_answers::answer_line(line.bytes(), out);
        line.clear();
        return written;
    }
    line.push(b);
    0
}

// Reads a block until it ends, or until out may not hold the next answer. Where out has room for an answer, a byte at least is read.
pub fn feed(block: &[u8], line: &mut Line, out: &mut [u8]) -> Fed
    ensures at_in_bounds { (result.at ≤ length block.now) × (length line.new ≤ 513) × (result.used ≤ length out.old) }
    ensures line_after { is_line line.new ≡ true }
    ensures answered { Answered line.old (take result.at block.now) (take result.used out.new) line.new }
    ensures out_len_bound { result.at < length block.now → length out.old < result.used + line_room }
    ensures at_nonzero { line_room ≤ length out.old → 0 < length block.now → 0 < result.at }
{
    // A line is held before the first byte too.
    let held = line.bytes();
    prove!(held.len() <= HELD);
    let mut used = 0;
    for (at, b) in block.iter().enumerate() {
        if out.len() - used < ROOM {
            return Fed { at, used };
        }
        used += take_byte(*b, line, &mut out[used..]);
    }
    Fed {
        at: block.len(),
        used,
    }
}

// Answers what is behind the last line feed, where the input has ended.
#[tactic(auto, using(crate::proofs::Lines::alone_laws))]
pub fn last(line: &[u8], out: &mut [u8]) -> usize
    requires { (line_room ≤ length out.old) × (is_line line.now ≡ true) }
    ensures { (result ≡ length (program line.now)) × (result ≤ line_room) × (out.new ≡ over out.old (program line.now)) }
{
    if line.is_empty() {
        return 0;
    }
    phrases_answers::answer_line(line, out)
}
