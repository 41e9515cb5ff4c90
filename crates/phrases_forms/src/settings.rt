// The three words of settings, as 01's numbers.
ghost use Rattle.std.specs.Prelude.{◌≡◌};
ghost use Rattle.phrases_forms.specs.Cuts.{next_word, after_space};
ghost use Rattle.phrases_forms.specs.Line.{gender_of, grammatical_number_of, case_of, feminine_of, reformed_of, region_of};

use super::{cut, names};

// The setting numbers of three words, in their order, and what is behind them.
#[derive(Clone, Copy)]
pub struct Three<'a> {
    pub a: u32,
    pub b: u32,
    pub c: u32,
    pub rest: &'a [u8],
}

// Gender, grammatical number and case.
pub fn ukrainian(s: &[u8]) -> Three<'_>
    ensures a_value { (result.a ≡ gender_of (next_word s.now)) × (result.b ≡ grammatical_number_of (next_word (after_space s.now))) × (result.c ≡ case_of (next_word (after_space (after_space s.now)))) }
    ensures s_value { result.rest.now ≡ after_space (after_space (after_space s.now)) }
{
    let (gender, rest) = cut(s);
    let (number, rest) = cut(rest);
    let (case, rest) = cut(rest);
    Three {
        a: names::gender_of(gender),
        b: names::number_of(number),
        c: names::case_of(case),
        rest,
    }
}

// Gender, spelling and region.
pub fn french(s: &[u8]) -> Three<'_>
    ensures a_value { (result.a ≡ feminine_of (next_word s.now)) × (result.b ≡ reformed_of (next_word (after_space s.now))) × (result.c ≡ region_of (next_word (after_space (after_space s.now)))) }
    ensures s_value { result.rest.now ≡ after_space (after_space (after_space s.now)) }
{
    let (gender, rest) = cut(s);
    let (spelling, rest) = cut(rest);
    let (region, rest) = cut(rest);
    Three {
        a: names::feminine_of(gender),
        b: names::reformed_of(spelling),
        c: names::region_of(region),
        rest,
    }
}
