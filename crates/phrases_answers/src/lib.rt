#![tactic(auto)]
// What the program writes to a line.
mod french;
mod ukrainian;
mod write;

ghost use Rattle.std.specs.Prelude.{◌≡◌, ◌≤◌, length};
ghost use Rattle.base.specs.Buffer.{over};
ghost use Rattle.base.specs.Room.{line_room};
ghost use Rattle.phrases_forms.specs.Line.{words_of};
ghost use Rattle.phrases_answers.specs.Answers.{form, answer_line};
ghost use Rattle.phrases_answers.specs.Asked.{Asked};

use base::Refusal;
use phrases_forms::{Language, cut, names};
use write::{bad, finish};

// The bytes of the longest line that has an answer but `bad line`.
pub const LONGEST_LINE: usize = 512;

// What the call that a line asks for is told, with its phrase over the front of out; nothing where the line is no form.
fn ask(s: &[u8], out: &mut [u8]) -> Option<Result<usize, Refusal>>
    ensures { Asked (form (words_of s.now)) result out.old out.new }
{
    let (word, rest) = cut(s);
    let kind = names::kind_of(word)?;
    let (word, rest) = cut(rest);
    match names::language_of(word)? {
        Language::Ukrainian => ukrainian::ask(kind, rest, out),
        Language::French => french::ask(kind, rest, out),
    }
}

// Writes a line's answer, with its line feed, over the front of out, and returns its length.
pub fn answer_line(s: &[u8], out: &mut [u8]) -> usize
    requires { line_room ≤ length out.old }
    ensures value { (result ≡ length (answer_line s.now)) × (out.new ≡ over out.old (answer_line s.now)) }
    ensures upper_bound { result ≤ line_room }
{
    if LONGEST_LINE < s.len() {
        return bad(out);
    }
    match ask(s, out) {
        Some(told) => finish(told, out),
        None => bad(out),
    }
}
