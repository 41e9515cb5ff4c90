// The lines that are written.
ghost use Rattle.std.specs.Prelude.{[], ◌≤◌, length, take};
ghost use Rattle.base.specs.Refused.{refusal_number, answer_of};
ghost use Rattle.base.specs.Room.{phrase_room, line_room};
ghost use Rattle.phrases_answers.specs.Answers.{line_of, bad_line};
ghost use Rattle.phrases_answers.specs.Wrote.{Wrote};

use base::Refusal;

// Writes the answer to a line that is no form.
pub fn bad(out: &mut [u8]) -> usize
    requires { line_room ≤ length out.old }
    ensures { Wrote bad_line result out.old out.new }
{
    words::copy(b"bad line\n", out)
}

// Writes a refusal, with its number as a number text.
fn refuse(refusal: Refusal, out: &mut [u8]) -> usize
    requires { line_room ≤ length out.old }
    ensures { Wrote (line_of (refusal_number refusal) []) result out.old out.new }
{
    let number = refusal.number() as u8;
    if number < 10 {
        let mut line = *b"refused 0\n";
        line[8] = b'0' + number;
        return words::copy(&line, out);
    }
    let mut line = *b"refused 00\n";
    line[8] = b'0' + number / 10;
    line[9] = b'0' + number % 10;
    words::copy(&line, out)
}

// Ends the line of what a call was told: its phrase stands at the front of out, or it was refused.
pub fn finish(told: Result<usize, Refusal>, out: &mut [u8]) -> usize
    requires { ((answer_of told).length ≤ phrase_room) × (line_room ≤ length out.old) }
    ensures { Wrote (line_of (answer_of told).number (take (answer_of told).length out.old)) result out.old out.new }
{
    match told {
        Ok(length) => {
            out[length] = b'\n';
            length + 1
        }
        Err(refusal) => refuse(refusal, out),
    }
}
