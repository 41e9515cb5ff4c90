#![tactic(auto)]
// The way back to a text: the number text of groups, written to a lent buffer.
pub mod money; // money.rt: the money text of groups and hundredths

ghost use Rattle.std.specs.Prelude.{◌≡◌, ◌*◌, ◌≤◌, ◌<◌, length};
ghost use Rattle.base.specs.Buffer.{over};
ghost use Rattle.base.specs.Answer.{fitted, Answers};
ghost use Rattle.base.specs.Refused.{answer_of};
ghost use Rattle.figures.specs.Written.{fixed, decimal, signed_decimal};
ghost use Rattle.figures.specs.Groups.{total, Groups};
ghost use Rattle.groups.specs.Highest.{Highest};
ghost use Rattle.groups.specs.Read.{read_in};
ghost use Rattle.numerals.specs.Reading.{answered};

use base::Refusal;
use groups::{Figure, Number};

// How many digits a group has without leading zeros.
fn group_size(x: u16) -> usize
    requires { x < 1000 }
    ensures { result ≡ length (decimal x) }
{
    match x {
        0..=9 => 1,
        10..=99 => 2,
        _ => 3,
    }
}

// The length of the number text of the number with the groups g, of n orders; that of 0 has one digit.
pub fn text_size(n: usize, g: &[u16]) -> usize
    requires groups { Groups g.now × Highest g.now n }
    requires g_nonzero { (0 < length g.now) × (length g.now ≤ 34) }
    ensures { result ≡ length (decimal (total g.now)) }
{
    if n == 0 {
        return 1;
    }
    (n - 1) * 3 + group_size(g[n - 1])
}

// Writes the last k digits of x, one to three.
fn put_digits(x: u16, k: usize, out: &mut [u8])
    requires { (x < 1000) × (0 < k) × (k < 4) × (k ≤ length out.old) }
    ensures { out.new ≡ over out.old (fixed k x) }
{
    match k {
        1 => {
            out[0] = b'0' + (x % 10) as u8;
        }
        2 => {
            out[0] = b'0' + (x / 10 % 10) as u8;
            out[1] = b'0' + (x % 10) as u8;
        }
        _ => {
            out[0] = b'0' + (x / 100) as u8;
            out[1] = b'0' + (x / 10 % 10) as u8;
            out[2] = b'0' + (x % 10) as u8;
        }
    }
}

// Writes the o lowest groups of g, three digits each, from the highest down.
fn put_groups(g: &[u16], o: usize, out: &mut [u8])
    requires groups { Groups g.now }
    requires o_in_bounds { (o ≤ length g.now) × (o * 3 ≤ length out.old) }
    ensures { out.new ≡ over out.old (fixed (o * 3) (total g.now)) }
{
    for order in (0..o).rev() {
        put_digits(g[order], 3, &mut out[(o - 1 - order) * 3..]);
    }
}

// Writes that text, which is w bytes long: the highest group without leading zeros, and the groups below it.
pub fn put_text(g: &[u16], out: &mut [u8], w: usize)
    requires groups { Groups g.now }
    requires g_nonzero { (0 < length g.now) × (length g.now ≤ 34) }
    requires w_value { w ≡ length (decimal (total g.now)) }
    requires w_in_bounds { w ≤ length out.old }
    ensures { out.new ≡ over out.old (decimal (total g.now)) }
{
    let o = (w - 1) / 3;
    let i = w - o * 3;
    put_digits(g[o], i, out);
    put_groups(g, o, &mut out[i..]);
}

// The length of the number text of that number, or of its opposite.
pub fn number_size(minus: bool, n: usize, g: &[u16]) -> usize
    requires groups { Groups g.now × Highest g.now n }
    requires g_nonzero { (0 < length g.now) × (length g.now ≤ 34) }
    ensures { (result ≡ length (signed_decimal minus (total g.now))) × (result ≤ 103) }
{
    text_size(n, g) + usize::from(minus)
}

// Writes that text, which is w bytes long.
pub fn put_signed(minus: bool, g: &[u16], out: &mut [u8], w: usize)
    requires groups { Groups g.now }
    requires g_nonzero { (0 < length g.now) × (length g.now ≤ 34) }
    requires w_value { w ≡ length (signed_decimal minus (total g.now)) }
    requires w_in_bounds { w ≤ length out.old }
    ensures { out.new ≡ over out.old (signed_decimal minus (total g.now)) }
{
    if minus {
        out[0] = b'-';
        put_text(g, &mut out[1..], w - 1);
    } else {
        put_text(g, out, w);
    }
}

// Writes the text of a number with its sign and returns its length, or is refused where the buffer is shorter.
fn put_number<const N: usize>(
    minus: bool,
    number: &Number<N>,
    out: &mut [u8],
) -> Result<usize, Refusal>
    requires { (0 < N) × (N ≤ 34) }
    ensures { Answers (answer_of result) out.old out.new (fitted out.old (signed_decimal minus (total number.now.groups))) }
{
    let length = number_size(minus, number.orders, &number.groups);
    if out.len() < length {
        return Err(Refusal::NoRoom(length));
    }
    put_signed(minus, &number.groups, out, length);
    Ok(length)
}

// Writes the text of what was read with its sign, or is refused where nothing was.
pub fn put_read<const N: usize>(read: Option<Figure<N>>, out: &mut [u8]) -> Result<usize, Refusal>
    requires { (0 < N) × (N ≤ 34) }
    ensures { Answers (answer_of result) out.old out.new (answered read.entry out.old) }
{
    match read {
        Some(figure) => put_number(figure.minus, &figure.number, out),
        None => Err(Refusal::NoSentence),
    }
}

// The same of a number that was read into one that is lent, which is not copied: its sign stands beside it.
pub fn put_lent<const N: usize>(
    minus: Option<bool>,
    number: &Number<N>,
    out: &mut [u8],
) -> Result<usize, Refusal>
    requires { (0 < N) × (N ≤ 34) }
    ensures { Answers (answer_of result) out.old out.new (answered (read_in minus number.now) out.old) }
{
    match minus {
        Some(minus) => put_number(minus, number, out),
        None => Err(Refusal::NoSentence),
    }
}
