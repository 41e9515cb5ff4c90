// Ukrainian ordinals and years read back: those as taught in school.
ghost use Rattle.std.specs.Prelude.{◌≡◌};
ghost use Rattle.base.specs.Reading.{Reads as ReadsAs};
ghost use Rattle.base.specs.Refused.{answer_of};
ghost use Rattle.settings.specs.Settings.{ukrainian_settings};
ghost use Rattle.uk_ordinal_calls.specs.UkOrdinals.{uk_from_ordinal, uk_from_year};
ghost use Rattle.uk_ordinal_calls.specs.Read.{ChoosesSchool};

use base::Refusal;
use settings::{Style, Ukrainian};

// The settings with these numbers, where the style is that of school.
fn school(
    gender: u32,
    number: u32,
    case: u32,
    apostrophe: u32,
    style: u32,
) -> Result<Ukrainian, Refusal>
    ensures { ChoosesSchool result (ukrainian_settings gender number case apostrophe style) }
{
    let settings = Ukrainian::new(gender, number, case, apostrophe, style)?;
    match settings.style {
        Style::School => Ok(settings),
        Style::Ported => Err(Refusal::WrongSetting),
    }
}

// The number text of an ordinal.
#[tactic(auto, using(settings::proofs::Handed::handed))]
pub fn from_ordinal(
    gender: u32,
    number: u32,
    case: u32,
    apostrophe: u32,
    style: u32,
    said: &[u8],
    out: &mut [u8],
) -> Result<usize, Refusal>
    ensures { ReadsAs (uk_from_ordinal (ukrainian_settings gender number case apostrophe style)) said.now (answer_of result) out.old out.new }
{
    let settings = school(gender, number, case, apostrophe, style)?;
    numerals::put_read(uk_ordinal_read::read_ordinal(settings, said), out)
}

// The number text of a year.
#[tactic(auto, using(settings::proofs::Handed::handed))]
pub fn from_year(
    gender: u32,
    number: u32,
    case: u32,
    apostrophe: u32,
    style: u32,
    said: &[u8],
    out: &mut [u8],
) -> Result<usize, Refusal>
    ensures { ReadsAs (uk_from_year (ukrainian_settings gender number case apostrophe style)) said.now (answer_of result) out.old out.new }
{
    let settings = school(gender, number, case, apostrophe, style)?;
    numerals::put_read(uk_ordinal_read::read_year(settings, said), out)
}
