#![tactic(auto, using(crate::proofs::Words::name_is), unfolding(crate::specs::Line::kind_of, crate::specs::Line::language_of, crate::specs::Line::gender_of, crate::specs::Line::grammatical_number_of, crate::specs::Line::case_of, crate::specs::Line::feminine_of, crate::specs::Line::reformed_of, crate::specs::Line::region_of))]
// The names of kinds, languages and settings.
ghost use Rattle.std.specs.Prelude.{◌≡◌};
ghost use Rattle.phrases_forms.specs.Line.{kind_of, language_of, gender_of, grammatical_number_of, case_of, feminine_of, reformed_of, region_of};

use super::{Kind, Language};

// The kind that a word opens.
pub fn kind_of(s: &[u8]) -> Option<Kind>
    ensures { result ≡ kind_of s.now }
{
    match s {
        b"(card" => Some(Kind::Card),
        b"(ord" => Some(Kind::Ord),
        b"(num" => Some(Kind::Num),
        b"(year" => Some(Kind::Year),
        b"(money" => Some(Kind::Money),
        _ => None,
    }
}

// The language that a word opens.
pub fn language_of(s: &[u8]) -> Option<Language>
    ensures { result ≡ language_of s.now }
{
    match s {
        b"(uk" => Some(Language::Ukrainian),
        b"(fr" => Some(Language::French),
        _ => None,
    }
}

// 01's number of a Ukrainian gender.
pub fn gender_of(s: &[u8]) -> u32
    ensures { result ≡ gender_of s.now }
{
    match s {
        b"m" => 0,
        b"f" => 1,
        b"n" => 2,
        _ => 3,
    }
}

// 01's number of a grammatical number.
pub fn number_of(s: &[u8]) -> u32
    ensures { result ≡ grammatical_number_of s.now }
{
    match s {
        b"sing" => 0,
        b"plur" => 1,
        _ => 2,
    }
}

// 01's number of a case, which closes the settings.
pub fn case_of(s: &[u8]) -> u32
    ensures { result ≡ case_of s.now }
{
    match s {
        b"nom)" => 0,
        b"gen)" => 1,
        b"dat)" => 2,
        b"acc)" => 3,
        b"ins)" => 4,
        b"loc)" => 5,
        _ => 6,
    }
}

// 01's number of a French gender.
pub fn feminine_of(s: &[u8]) -> u32
    ensures { result ≡ feminine_of s.now }
{
    match s {
        b"m" => 0,
        b"f" => 1,
        _ => 2,
    }
}

// 01's number of a French spelling.
pub fn reformed_of(s: &[u8]) -> u32
    ensures { result ≡ reformed_of s.now }
{
    match s {
        b"old" => 0,
        b"new" => 1,
        _ => 2,
    }
}

// 01's number of a region, which closes the settings.
pub fn region_of(s: &[u8]) -> u32
    ensures { result ≡ region_of s.now }
{
    match s {
        b"FR)" => 0,
        b"BE)" => 1,
        b"CH)" => 2,
        _ => 3,
    }
}
