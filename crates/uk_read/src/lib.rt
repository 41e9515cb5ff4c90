#![tactic(auto)]
// The reader of Ukrainian cardinals. It takes any bytes word by word, makes a sign and groups of them, and compares the words that these have
// under the settings, planned as the speller plans them, with the bytes.
ghost use Rattle.std.specs.Prelude.{◌≡◌, ◌++◌, ◌+◌, ◌≤◌, ◌<◌, length, take, drop, replicate, IfSome, is_some, unwrap_or};
ghost use Rattle.settings.specs.Chosen.{numbers_of};
ghost use Rattle.figures.specs.Groups.{Groups};
ghost use Rattle.groups.specs.Read.{ReadOf};
ghost use Rattle.groups.specs.Highest.{ZeroFrom};
ghost use Rattle.tokens.specs.Tokens.{split};
ghost use Rattle.uk.specs.Ukrainian.{ukrainian};
ghost use Rattle.cardinals.specs.Grammar.{Says};
ghost use Rattle.uk_read.specs.Reading.{taken, sums, left, signed, after_minus};

use groups::{Figure, Number};
use plan::Plan;
use settings::Ukrainian;
use uk::ORDERS;

// What words mean: a number word at most the first of these, a scale noun its order and the second, the minus word the third.
const MOST: u16 = 999;

const SCALE: u16 = 1000;

const MINUS: u16 = 2001;

// A group's value and order, and where the next group starts.
#[derive(Clone, Copy)]
pub struct Group {
    pub value: u16,
    pub order: usize,
    pub next: usize,
}

// How many bytes groups have in a text, and how many orders: that of the first group and 1, or 0 for no group.
#[derive(Clone, Copy)]
pub struct Span {
    pub bytes: usize,
    pub orders: usize,
}

// The group at the front of a text: number words up to a scale noun, or up to a word that is none, or the end.
fn first_group(s: &[u8]) -> Group
    ensures value_value { (result.value ≡ (taken 0 (split s.now)).value) × (result.order ≡ (taken 0 (split s.now)).order) × (result.value < 1000) }
    ensures s_value { (split (drop result.next s.now) ≡ (taken 0 (split s.now)).rest) × (result.next ≤ length s.now) }
{
    let mut value: u16 = 0;
    let mut at: usize = 0;
    // Not a `for`: where the next word starts is known only once this one was looked up.
    while at < s.len() {
        let t = tokens::first(&s[at..]);
        let m = uk_meanings::meaning(t.key);
        if m == 0 {
            return Group {
                value,
                order: 0,
                next: at,
            };
        }
        let next = at + t.next;
        if MOST < m {
            let order = usize::from(m - SCALE);
            return Group { value, order, next };
        }
        value = (value + m) % 1000;
        at = next;
    }
    Group {
        value,
        order: 0,
        next: at,
    }
}

// The groups of the orders below k, from the highest down; each call has a lower order and the part of the text behind its group.
// The orders that are not there stay 0. Below order 0 no word is taken.
pub fn groups(k: usize, s: &[u8], out: &mut [u16; ORDERS]) -> Span
    requires { (k ≤ 22) × (take k out.old ≡ replicate k 0) }
    ensures out_after { (out.new ≡ sums k (split s.now) ++ drop k out.old) × (Groups out.old → Groups out.new) }
    ensures s_value { (split (drop result.bytes s.now) ≡ left k (split s.now)) × (result.bytes ≤ length s.now) }
    ensures zero_from { ZeroFrom (sums k (split s.now)) result.orders × (result.orders ≤ k) }
{
    if k == 0 {
        return Span {
            bytes: 0,
            orders: 0,
        };
    }
    let g = first_group(s);
    let order = g.order;
    if order < k {
        out[order] = g.value;
        let at = g.next;
        let below = groups(order, &s[at..], out);
        return Span {
            bytes: at + below.bytes,
            orders: order + 1,
        };
    }
    Span {
        bytes: 0,
        orders: 0,
    }
}

// How many bytes the minus word at the front of a text has with the space behind it, if it stands there.
fn minus(s: &[u8]) -> Option<usize>
    ensures found { is_some result ≡ signed (split s.now) }
    ensures passed { (split (drop (unwrap_or result 0) s.now) ≡ after_minus (split s.now)) × (unwrap_or result 0 ≤ length s.now) }
{
    if s.is_empty() {
        return None;
    }
    let t = tokens::first(s);
    if uk_meanings::meaning(t.key) == MINUS {
        Some(t.next)
    } else {
        None
    }
}

// Any bytes, under these settings: what they are by the grammar.
pub fn read_cardinal(settings: Ukrainian, s: &[u8]) -> Option<Figure<ORDERS>>
    ensures { ReadOf (Says (ukrainian (numbers_of settings)) s.now) result }
{
    let sign = minus(s);
    let start = sign.unwrap_or(0);
    let mut gs = [0u16; ORDERS];
    let span = groups(ORDERS, &s[start..], &mut gs);
    let number = Number::of_groups(gs, span.orders);
    let mut plan = Plan::new();
    uk_plan::plan_cardinal(settings, sign.is_some(), &number, &mut plan);
    let stands = uk::stands(plan.codes(), s);
    Figure::read(number, sign.is_some(), stands)
}
