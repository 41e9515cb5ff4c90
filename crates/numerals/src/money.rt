// The money text of groups and hundredths, written to a lent buffer.
ghost use Rattle.std.specs.Prelude.{◌≡◌, ◌∷◌, ◌≤◌, ◌<◌, length};
ghost use Rattle.base.specs.Buffer.{over};
ghost use Rattle.base.specs.Answer.{fitted, Answers};
ghost use Rattle.base.specs.Refused.{answer_of};
ghost use Rattle.figures.specs.Written.{fixed};
ghost use Rattle.figures.specs.Groups.{total, Groups};
ghost use Rattle.groups.specs.Highest.{Highest};
ghost use Rattle.figures.specs.Written.{money_decimal};

use crate::{put_text, text_size};
use base::Refusal;
use groups::Number;

// The length of the money text of the number with the groups g, of n orders, and h hundredths.
pub fn money_size(n: usize, g: &[u16], h: u32) -> usize
    requires groups { Groups g.now × Highest g.now n }
    requires g_nonzero { (0 < length g.now) × (length g.now ≤ 34) }
    ensures { result ≡ length (money_decimal (total g.now) h) }
{
    if h == 0 {
        text_size(n, g)
    } else {
        text_size(n, g) + 3
    }
}

// Writes '.' and h hundredths.
fn put_hundredths(h: u32, out: &mut [u8])
    requires { (h < 100) × (3 ≤ length out.old) }
    ensures { out.new ≡ over out.old (46 ∷ fixed 2 h) }
{
    out[0] = b'.';
    out[1] = b'0' + (h / 10) as u8;
    out[2] = b'0' + (h % 10) as u8;
}

// Writes that text, which is w bytes long.
pub fn put_money(g: &[u16], h: u32, out: &mut [u8], w: usize)
    requires groups { Groups g.now }
    requires g_nonzero { (0 < length g.now) × (length g.now ≤ 34) }
    requires w_value { (w ≡ length (money_decimal (total g.now) h)) × (h < 100) }
    requires w_in_bounds { w ≤ length out.old }
    ensures { out.new ≡ over out.old (money_decimal (total g.now) h) }
{
    if h == 0 {
        put_text(g, out, w);
    } else {
        let p = w - 3;
        put_text(g, out, p);
        put_hundredths(h, &mut out[p..]);
    }
}

// Writes that text and returns its length, or is refused where the buffer is shorter.
pub fn put_money_text<const N: usize>(
    number: &Number<N>,
    h: u32,
    out: &mut [u8],
) -> Result<usize, Refusal>
    requires few { (0 < N) × (N ≤ 34) }
    requires h_bound { h < 100 }
    ensures { Answers (answer_of result) out.old out.new (fitted out.old (money_decimal (total number.now.groups) h)) }
{
    let length = money_size(number.orders, &number.groups, h);
    if out.len() < length {
        return Err(Refusal::NoRoom(length));
    }
    put_money(&number.groups, h, out, length);
    Ok(length)
}
