#![tactic(auto)]
// Readers of French phrases. The meanings of the words are added up, leniently, to a number; then the number's own phrase, by the speller's
// plan, is held against the bytes. So everything that depends on a setting stands in the planner alone.
ghost use Rattle.std.specs.Prelude.{◌≡◌, ◌∷◌, ◌++◌, ℕ, ◌+◌, ◌-◌, ◌%◌, ◌≤◌, ◌<◌, length, drop, replicate, is_some, unwrap_or};
ghost use Rattle.base.specs.Decides.{Decides};
ghost use Rattle.figures.specs.Groups.{total};
ghost use Rattle.groups.specs.Read.{read_in, ReadOf};
ghost use Rattle.settings.specs.Chosen.{french_numbers_of};
ghost use Rattle.cardinals.specs.Cardinal.{cardinal_phrase};
ghost use Rattle.cardinals.specs.Grammar.{Says};
ghost use Rattle.fr.specs.Rules.{french};
ghost use Rattle.fr.specs.Ordinal.{nth_phrase};
ghost use Rattle.fr.specs.Grammar.{SaysNth};
ghost use Rattle.groups.specs.Highest.{ZeroFrom};
ghost use Rattle.fr_read.specs.Reading.{meanings, grow as grow_of, times as times_of, at_least_one, guess as guess_of, seems, groups_read, is_minus, behind_minus, guessed};

use fr_plan::{ORDERS, Plan};
use groups::Number;
use settings::French;

// The meaning of the minus word, and those of the scale words: an order above this.
const MINUS: u16 = 2001;

const SCALE: u16 = 1000;

// The meaning of `cent`, which is its value.
const HUNDRED: u16 = 100;

// A number below a hundred, the meaning of the word that ends it, and where the next word starts.
#[derive(Clone, Copy)]
pub struct Part {
    pub count: u16,
    pub meaning: u16,
    pub next: usize,
}

// A group's value and order, and where the next group starts.
#[derive(Clone, Copy)]
pub struct Group {
    pub value: u16,
    pub order: usize,
    pub next: usize,
}

// The last two digits of a sum.
fn sum(c: u16, m: u16) -> u16
    requires { (c < 100) × (m ≤ 100) }
    ensures { result ≡ (c + m) % 100 }
{
    if c + m < HUNDRED {
        c + m
    } else {
        c + m - HUNDRED
    }
}

// One more word of a number below a hundred.
fn grow(c: u16, m: u16) -> u16
    requires { (c < 100) × (m ≤ 100) }
    ensures { result ≡ grow_of c m }
{
    if c == 4 && m == 20 { 80 } else { sum(c, m) }
}

// How many hundreds `cent` is after c.
fn times(c: u16) -> u16
    ensures { result ≡ times_of c }
{
    if c == 0 { 1 } else { c % 10 }
}

// What a scale word is after the number v.
fn one(v: u16) -> u16
    ensures { result ≡ at_least_one v }
{
    v.max(1)
}

// The order of a scale word's meaning.
fn order_of(m: u16) -> usize
    ensures { result ≡ m - 1000 }
{
    usize::from(m.saturating_sub(SCALE))
}

// The number below a hundred from a place on: its words, up to one that means a hundred or more, or the end, which means 0.
fn low(s: &[u8], from: usize) -> Part
    requires { from < length s.now }
    ensures by_index { (h : ℕ) → seems h 0 (meanings (drop from s.now)) ≡ seems h result.count (result.meaning ∷ meanings (drop result.next s.now)) }
    ensures count_bound { (result.count < 100) × (from < result.next) × (result.next ≤ length s.now) × (result.meaning < 100 → (result.meaning ≡ 0) × (length s.now ≤ result.next)) }
{
    let mut c: u16 = 0;
    let mut at = from;
    // Not a `for`: where the next word starts is known only once this one was looked up.
    while let Some(w) = walker::word(s, at) {
        let m = fr_meanings::meaning(w.key);
        at += w.next;
        if HUNDRED <= m {
            return Part {
                count: c,
                meaning: m,
                next: at,
            };
        }
        c = grow(c, m);
    }
    Part {
        count: c,
        meaning: 0,
        next: at,
    }
}

// The group at the front: its words, up to a scale word or the end.
fn first_group(s: &[u8]) -> Group
    ensures s_value { seems 0 0 (meanings s.now) ≡ guess_of result.value result.order (meanings (drop result.next s.now)) }
    ensures next_in_bounds { result.next ≤ length s.now }
{
    let mut h: u16 = 0;
    let mut at: usize = 0;
    // Not a `for`: each turn takes as many words as stand up to the next hundred or scale word.
    while at < s.len() {
        let t = low(s, at);
        at = t.next;
        if HUNDRED < t.meaning {
            return Group {
                value: one(HUNDRED * h + t.count),
                order: order_of(t.meaning),
                next: at,
            };
        }
        if t.meaning < HUNDRED {
            return Group {
                value: HUNDRED * h + t.count,
                order: 0,
                next: at,
            };
        }
        h = times(t.count);
    }
    Group {
        value: HUNDRED * h,
        order: 0,
        next: at,
    }
}

// The groups of the orders below k, from the highest down; each call has the order of the group that it follows, which is lower, and the part of
// the text behind it. The orders that are not there stay 0. Returns how many orders there are: that of the first group and 1, or 0 for no group.
// Below order 0 no word is taken.
fn groups(k: usize, s: &[u8], out: &mut [u16; ORDERS]) -> usize
    requires { (k ≤ 34) × (out.old ≡ replicate k 0 ++ drop k out.old) }
    ensures out_after { out.new ≡ groups_read k (seems 0 0 (meanings s.now)) ++ drop k out.old }
    ensures zero_from { ZeroFrom (groups_read k (seems 0 0 (meanings s.now))) result × (result ≤ k) }
{
    if k == 0 {
        return 0;
    }
    let g = first_group(s);
    let order = g.order;
    if order < k {
        out[order] = g.value;
        let at = g.next;
        groups(order, &s[at..], out);
        return order + 1;
    }
    0
}

// The number that bytes seem to be.
fn guess(s: &[u8], number: &mut Number<ORDERS>)
    ensures { number.new.groups ≡ guessed (meanings s.now) }
{
    let mut gs = [0u16; ORDERS];
    let orders = groups(ORDERS, s, &mut gs);
    *number = Number::of_groups(gs, orders);
}

// How many bytes the minus word and the gap behind it have at the front, if it stands there.
fn sign(s: &[u8]) -> Option<usize>
    ensures found { is_some result ≡ is_minus (meanings s.now) }
    ensures passed { (meanings (drop (unwrap_or result 0) s.now) ≡ behind_minus (meanings s.now)) × (unwrap_or result 0 ≤ length s.now) }
{
    let first = walker::word(s, 0)?;
    if fr_meanings::meaning(first.key) == MINUS {
        Some(first.next)
    } else {
        None
    }
}

// Whether s is the cardinal of a number.
fn is_cardinal(settings: French, negative: bool, number: &Number<ORDERS>, s: &[u8]) -> bool
    ensures { Decides result (cardinal_phrase (french (french_numbers_of settings)) negative (total number.now.groups) ≡ s.now) }
{
    let mut plan = Plan::new();
    fr_plan::plan_cardinal(settings, negative, number, &mut plan);
    fr::stands(plan.codes(), s)
}

// Whether s is the ordinal of a number.
fn is_ordinal(settings: French, number: &Number<ORDERS>, s: &[u8]) -> bool
    ensures { Decides result (nth_phrase (french_numbers_of settings) (total number.now.groups) ≡ s.now) }
{
    let lent = fr::texts();
    let mut plan = Plan::new();
    fr_plan::plan_ordinal(&lent, settings, number, &mut plan);
    plan::stands(&lent, plan.codes(), s)
}

// Any bytes as a cardinal under these settings: what they are by the grammar. The number is lent, for one of 34 groups that is handed out is copied.
pub fn read_cardinal(settings: French, s: &[u8], number: &mut Number<ORDERS>) -> Option<bool>
    ensures { ReadOf (Says (french (french_numbers_of settings)) s.now) (read_in result number.new) }
{
    let minus = sign(s);
    let start = minus.unwrap_or(0);
    guess(&s[start..], number);
    let stands = is_cardinal(settings, minus.is_some(), number, s);
    number.sign_read(minus.is_some(), stands)
}

// Any bytes as an ordinal, which has no sign, under these settings: what they are by the grammar.
pub fn read_ordinal(settings: French, s: &[u8], number: &mut Number<ORDERS>) -> Option<bool>
    ensures { ReadOf (SaysNth (french_numbers_of settings) s.now) (read_in result number.new) }
{
    guess(s, number);
    let stands = is_ordinal(settings, number, s);
    number.sign_read(false, stands)
}
