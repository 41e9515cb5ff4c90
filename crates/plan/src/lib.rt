#![tactic(auto)]
// Plans: a phrase is planned piece by piece, then measured, written, or compared with a text. Every kind of phrase goes through these functions; the
// texts of its pieces are parts of a pool, which the caller lends.
pub mod measure; // measure.rt: the figures of a phrase
mod pieces; // pieces.rt: the plan that is being written

ghost use Rattle.std.specs.Prelude.{◌≡◌, ◌*◌, ◌≤◌, true, [], ◌∷◌, length};
ghost use Rattle.base.specs.Buffer.{over};
ghost use Rattle.base.specs.Answer.{fitted, Answers};
ghost use Rattle.base.specs.Refused.{answer_of};
ghost use Rattle.base.specs.Decides.{Decides};
ghost use Rattle.base.specs.Front.{passed};
ghost use Rattle.base.specs.Room.{longest_piece};
ghost use Rattle.plan.specs.Phrase.{following, phrase_of};
ghost use Rattle.plan.specs.Plan.{piece_of, pieces, Below};
ghost use Rattle.plan.specs.Stands.{stands as stands_as};

use base::Refusal;
pub use pieces::{ON, Plan, SEPARATORS, SPACE};

// What no piece is longer than, with its separator: `longest_piece`.
const LONGEST: usize = 40;

// Whether the pieces of a plan have their places below a limit.
pub fn below(plan: &[u32], limit: u32) -> bool
    ensures { result ≡ true → Below limit plan.now }
{
    plan.iter().all(|code| code / SEPARATORS < limit)
}

// The length of a piece with its separator.
#[tactic(auto, using(crate::proofs::Laws::piece_laws))]
fn piece_len(pool: &[u8], code: u32) -> usize
    ensures { (result ≡ length (following (piece_of pool.now code ∷ []))) × (result ≤ longest_piece) }
{
    let n = words::len(pool, code / SEPARATORS);
    if code % SEPARATORS == 0 { n } else { n + 1 }
}

// The length of pieces that follow others.
#[tactic(auto, using(crate::proofs::Laws::turn_laws))]
fn following_len(pool: &[u8], plan: &[u32]) -> usize
    requires { length plan.now ≤ 1000 }
    ensures { (result ≡ length (following (pieces pool.now plan.now))) × (result ≤ longest_piece * length plan.now) }
{
    let mut n: usize = 0;
    for &code in plan {
        n += piece_len(pool, code);
    }
    n
}

// The length of a phrase.
#[tactic(auto, using(crate::proofs::Laws::first_laws))]
fn len(pool: &[u8], plan: &[u32]) -> usize
    requires { length plan.now ≤ 1000 }
    ensures { (result ≡ length (phrase_of (pieces pool.now plan.now))) × (result ≤ longest_piece * length plan.now) }
{
    match plan {
        [] => 0,
        [first, others @ ..] => words::len(pool, first / SEPARATORS) + following_len(pool, others),
    }
}

// Writes a piece with its separator over the front of out.
#[tactic(auto, using(crate::proofs::Laws::piece_laws))]
fn put_piece(pool: &[u8], code: u32, out: &mut [u8]) -> usize
    requires { length (following (piece_of pool.now code ∷ [])) ≤ length out.old }
    ensures { (result ≡ length (following (piece_of pool.now code ∷ []))) × (out.new ≡ over out.old (following (piece_of pool.now code ∷ []))) }
{
    let separator = code % SEPARATORS;
    if separator == 0 {
        return words::put(pool, code / SEPARATORS, out);
    }
    out[0] = separator as u8;
    let n = words::put(pool, code / SEPARATORS, &mut out[1..]);
    n + 1
}

// Writes pieces that follow others; each hands on what is left of out.
#[tactic(auto, using(crate::proofs::Laws::turn_laws))]
fn put_following(pool: &[u8], plan: &[u32], out: &mut [u8]) -> usize
    requires { length (following (pieces pool.now plan.now)) ≤ length out.old }
    ensures { (result ≡ length (following (pieces pool.now plan.now))) × (out.new ≡ over out.old (following (pieces pool.now plan.now))) }
{
    let mut k: usize = 0;
    for &code in plan {
        k += put_piece(pool, code, &mut out[k..]);
    }
    k
}

// Writes a phrase over the front of out.
#[tactic(auto, using(crate::proofs::Laws::first_laws))]
fn put(pool: &[u8], plan: &[u32], out: &mut [u8]) -> usize
    requires { length (phrase_of (pieces pool.now plan.now)) ≤ length out.old }
    ensures { (result ≡ length (phrase_of (pieces pool.now plan.now))) × (out.new ≡ over out.old (phrase_of (pieces pool.now plan.now))) }
{
    match plan {
        [] => 0,
        [first, others @ ..] => {
            let k = words::put(pool, first / SEPARATORS, out);
            let n = put_following(pool, others, &mut out[k..]);
            k + n
        }
    }
}

// Writes what a plan says, where out holds it, and tells its length: measured first.
fn speak_measured(pool: &[u8], plan: &[u32], out: &mut [u8]) -> Result<usize, Refusal>
    requires { length plan.now ≤ 1000 }
    ensures answers { Answers (answer_of result) out.old out.new (fitted out.old (phrase_of (pieces pool.now plan.now))) }
    ensures length_bound { (answer_of result).length ≤ longest_piece * length plan.now }
{
    let size = len(pool, plan);
    if out.len() < size {
        return Err(Refusal::NoRoom(size));
    }
    put(pool, plan, out);
    Ok(size)
}

// Writes what a plan says, where out holds it, and tells its length. No piece with its separator is longer than LONGEST, so the phrase is measured only
// where out might not hold it.
#[tactic(auto, using(crate::proofs::Short::pieces_short))]
pub fn speak(pool: &[u8], plan: &[u32], out: &mut [u8]) -> Result<usize, Refusal>
    requires { length plan.now ≤ 1000 }
    ensures answers { Answers (answer_of result) out.old out.new (fitted out.old (phrase_of (pieces pool.now plan.now))) }
    ensures length_bound { (answer_of result).length ≤ longest_piece * length plan.now }
{
    if out.len() < LONGEST * plan.len() {
        return speak_measured(pool, plan, out);
    }
    Ok(put(pool, plan, out))
}

// The length of a piece with its separator, where s begins with them.
#[tactic(auto, using(crate::proofs::Standing::pass_laws))]
fn pass_piece(pool: &[u8], code: u32, s: &[u8]) -> Option<usize>
    ensures { result ≡ passed (following (piece_of pool.now code ∷ [])) s.now }
{
    let separator = code % SEPARATORS;
    if separator == 0 {
        return words::pass(pool, code / SEPARATORS, s);
    }
    match s {
        [first, others @ ..] if u32::from(*first) == separator => {
            let n = words::pass(pool, code / SEPARATORS, others)?;
            Some(n + 1)
        }
        _ => None,
    }
}

// Whether s is made of these pieces, which follow others; each turn hands on the part of s after the pieces before it.
#[tactic(auto, using(crate::proofs::Standing::stand_laws))]
fn stand_following(pool: &[u8], plan: &[u32], s: &[u8]) -> bool
    ensures { result ≡ stands_as (pieces pool.now plan.now) s.now }
{
    let mut rest = s;
    for &code in plan {
        let Some(n) = pass_piece(pool, code, rest) else {
            return false;
        };
        rest = &rest[n..];
    }
    rest.is_empty()
}

// Whether s is the phrase of a plan.
#[tactic(auto, using(crate::proofs::Standing::stand_laws))]
pub fn stands(pool: &[u8], plan: &[u32], s: &[u8]) -> bool
    ensures { Decides result (phrase_of (pieces pool.now plan.now) ≡ s.now) }
{
    match plan {
        [] => s.is_empty(),
        [first, others @ ..] => match words::pass(pool, first / SEPARATORS, s) {
            Some(n) => stand_following(pool, others, &s[n..]),
            None => false,
        },
    }
}
