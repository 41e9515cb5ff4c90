// Digit ordinals: the text's own digits, a hyphen and an ending. They need no plan, since all but the ending stands in the text.
ghost use Rattle.std.specs.Prelude.{◌≡◌, true, ◌∷◌, ◌++◌, ◌≤◌, ◌<◌, length};
ghost use Rattle.base.specs.Buffer.{over};
ghost use Rattle.base.specs.Answer.{fitted, Answers};
ghost use Rattle.base.specs.Room.{phrase_room};
ghost use Rattle.base.specs.Refused.{answer_of};
ghost use Rattle.settings.specs.Chosen.{numbers_of};
ghost use Rattle.words.specs.Part.{part};
ghost use Rattle.uk_ordinal.specs.Pool.{short_pool};
ghost use Rattle.figures.specs.Text.{digits, value};
ghost use Rattle.uk_ordinal.specs.Ordinal.{soft};
ghost use Rattle.uk_ordinal.specs.DigitOrdinal.{digit_ordinal};

use base::Refusal;
use settings::Ukrainian;

// More bytes than any ending has.
const LONGER: usize = 40;

// Whether the ordinal of what the digits mean has a soft ending: the last is 3, and the one before it is not 1.
#[tactic(auto, using(crate::proofs::Softness::soft_after, crate::proofs::Softness::soft_other))]
fn is_soft(text: &[u8]) -> bool
    requires { (digits text.now ≡ true) × (0 < length text.now) }
    ensures { result ≡ soft (value text.now) }
{
    match text {
        [.., tens, b'3'] => *tens != b'1',
        [b'3'] => true,
        _ => false,
    }
}

// Writes the digits, a hyphen and the ending at this place of their pool.
fn put(text: &[u8], ending: u16, out: &mut [u8]) -> usize
    requires { (length text.now ≤ 39) × (length (text.now ++ (45 ∷ part short_pool ending)) ≤ length out.old) }
    ensures { (result ≡ length (text.now ++ (45 ∷ part short_pool ending))) × (out.new ≡ over out.old (text.now ++ (45 ∷ part short_pool ending))) }
{
    let n = words::copy(text, out);
    out[n] = b'-';
    let k = n + 1;
    let m = uk_ordinal::put_short(ending, &mut out[k..]);
    k + m
}

// The length of the digit ordinal of an admitted text.
#[tactic(auto, using(crate::proofs::Hyphened::ordinal_laws))]
pub fn size(settings: Ukrainian, text: &[u8]) -> usize
    requires { (digits text.now ≡ true) × (0 < length text.now) × (length text.now ≤ 39) }
    ensures { result ≡ length (digit_ordinal (numbers_of settings) text.now) }
{
    let ending = uk_ordinal::short_ending(settings, is_soft(text));
    text.len() + 1 + uk_ordinal::short_len(ending)
}

// The digit ordinal of an admitted text, written where out holds it. It is measured first where out might not: no ending has 40 bytes.
#[tactic(auto, using(crate::proofs::Hyphened::ordinal_laws))]
pub fn say(settings: Ukrainian, text: &[u8], out: &mut [u8]) -> Result<usize, Refusal>
    requires { (digits text.now ≡ true) × (0 < length text.now) × (length text.now ≤ 39) }
    ensures answers { Answers (answer_of result) out.old out.new (fitted out.old (digit_ordinal (numbers_of settings) text.now)) }
    ensures length_le_phrase_room { (answer_of result).length ≤ phrase_room }
{
    let ending = uk_ordinal::short_ending(settings, is_soft(text));
    let n = text.len() + 1;
    if out.len() < n + LONGER {
        let size = n + uk_ordinal::short_len(ending);
        if out.len() < size {
            return Err(Refusal::NoRoom(size));
        }
    }
    Ok(put(text, ending, out))
}
