#![tactic(auto)]
// A number as groups of three digits, the lowest first.
mod figure; // figure.rt: a number with its sign, as it was read
mod number; // number.rt: a number whose groups are known

ghost use Rattle.std.specs.Prelude.{◌≡◌, true, [], ◌∷◌, ◌+◌, ◌-◌, ◌/◌, ◌≤◌, ◌<◌, ◌%◌, eqb, length, get_or, replicate};
ghost use Rattle.figures.specs.Text.{digits, value};
ghost use Rattle.figures.specs.Groups.{groups_of, total, Groups};
ghost use Rattle.groups.specs.Highest.{ZeroFrom, Highest};

pub use figure::Figure;
pub use number::Number;

// What three digits mean; their bytes of '0' add up to 5328.
fn three(a: u8, b: u8, c: u8) -> u16
    requires { digits (a ∷ b ∷ c ∷ []) ≡ true }
    ensures { result ≡ value (a ∷ b ∷ c ∷ []) }
{
    u16::from(a) * 100 + u16::from(b) * 10 + u16::from(c) - 5328
}

// The digits above the lowest group, and that group.
fn split_group(s: &[u8]) -> (&[u8], u16)
    requires { digits s.now ≡ true }
    ensures above { (digits result.0.now ≡ true) × (value result.0.now ≡ value s.now / 1000) }
    ensures group { result.1 ≡ value s.now % 1000 }
{
    match s {
        [above @ .., a, b, c] => (above, three(*a, *b, *c)),
        [b, c] => (&[], three(b'0', *b, *c)),
        [c] => (&[], three(b'0', b'0', *c)),
        [] => (&[], 0),
    }
}

// Stores the groups of digits over zeros, as many as out holds, from the lowest on.
fn fill(s: &[u8], out: &mut [u16])
    requires s_value { digits s.now ≡ true }
    requires out_value { out.old ≡ replicate (length out.old) 0 }
    ensures { out.new ≡ groups_of (length out.old) (value s.now) }
{
    let mut rest = s;
    for place in out.iter_mut() {
        if rest.is_empty() {
            return;
        }
        let (above, group) = split_group(rest);
        *place = group;
        rest = above;
    }
}

// The N lowest groups of digits.
pub fn groups_of<const N: usize>(s: &[u8]) -> [u16; N]
    requires { digits s.now ≡ true }
    ensures { result ≡ groups_of N (value s.now) }
{
    let mut g = [0u16; N];
    fill(s, &mut g);
    g
}

// Stores the groups of n over zeros, and returns how many orders they have; no number has more than seven.
pub fn groups_from(n: u64, out: &mut [u16]) -> usize
    requires out_value { out.old ≡ replicate (length out.old) 0 }
    requires in_bounds { 7 ≤ length out.old }
    ensures { (out.new ≡ groups_of (length out.old) n) × Highest out.new result }
{
    let mut rest = n;
    for (orders, place) in out.iter_mut().enumerate() {
        if rest == 0 {
            return orders;
        }
        *place = (rest % 1000) as u16;
        rest /= 1000;
    }
    out.len()
}

// How many groups digits have.
pub fn count(s: &[u8]) -> usize
    ensures { result ≡ (length s.now + 2) / 3 }
{
    s.len().div_ceil(3)
}

// The orders up to the highest group that is not 0, where those from m on are.
pub fn top(m: usize, gs: &[u16]) -> usize
    requires { (m ≤ length gs.now) × ZeroFrom gs.now m }
    ensures { Highest gs.now result × (0 < result → get_or gs.now (result - 1) 0 ≡ 0 → ⊥) }
{
    gs[..m]
        .iter()
        .rposition(|g| *g != 0)
        .map_or(0, |highest| highest + 1)
}

// Whether a number whose groups are these, of n orders, is k.
pub fn is(n: usize, gs: &[u16], k: u16) -> bool
    requires { (k < 1000) × Groups gs.now × (0 < length gs.now) × Highest gs.now n }
    ensures { result ≡ eqb (total gs.now) k }
{
    n <= 1 && gs[0] == k
}
