// Ukrainian settings.
ghost use Rattle.std.specs.Prelude.{◌≡◌, ◌≤◌, Ok, Err};
ghost use Rattle.base.specs.declared.Refusal.TheVariants.{WrongSetting};
ghost use Rattle.settings.specs.Settings.{ukrainian_settings};
ghost use Rattle.settings.specs.Chosen.{gender_number, grammatical_number, case_number, apostrophe_number, style_number, numbers_of, Numbered, Chooses};

use crate::Settings;
use base::Refusal;

#[derive(Clone, Copy, PartialEq, Eq)]
pub enum Gender {
    Masculine,
    Feminine,
    Neuter,
}

#[derive(Clone, Copy, PartialEq, Eq)]
pub enum Number {
    Singular,
    Plural,
}

#[derive(Clone, Copy, PartialEq, Eq)]
pub enum Case {
    Nominative,
    Genitive,
    Dative,
    Accusative,
    Instrumental,
    Locative,
}

// The sign for the apostrophe in words: the letter U+02BC, U+2019, or the ASCII sign.
#[derive(Clone, Copy, PartialEq, Eq)]
pub enum Apostrophe {
    Letter,
    Quotation,
    Ascii,
}

// Ordinals as ported, or as taught in school.
#[derive(Clone, Copy, PartialEq, Eq)]
pub enum Style {
    Ported,
    School,
}

#[derive(Clone, Copy, PartialEq, Eq)]
pub struct Ukrainian {
    pub gender: Gender,
    pub number: Number,
    pub case: Case,
    pub apostrophe: Apostrophe,
    pub style: Style,
}

impl TryFrom<u32> for Gender {
    type Error = Refusal;

    ghost try_from_gives = { Numbered gender_number 3 };

    fn try_from(number: u32) -> Result<Gender, Refusal> {
        match number {
            0 => Ok(Gender::Masculine),
            1 => Ok(Gender::Feminine),
            2 => Ok(Gender::Neuter),
            _ => Err(Refusal::WrongSetting),
        }
    }
}

impl TryFrom<u32> for Number {
    type Error = Refusal;

    ghost try_from_gives = { Numbered grammatical_number 2 };

    fn try_from(number: u32) -> Result<Number, Refusal> {
        match number {
            0 => Ok(Number::Singular),
            1 => Ok(Number::Plural),
            _ => Err(Refusal::WrongSetting),
        }
    }
}

impl TryFrom<u32> for Case {
    type Error = Refusal;

    ghost try_from_gives = { Numbered case_number 6 };

    fn try_from(number: u32) -> Result<Case, Refusal> {
        match number {
            0 => Ok(Case::Nominative),
            1 => Ok(Case::Genitive),
            2 => Ok(Case::Dative),
            3 => Ok(Case::Accusative),
            4 => Ok(Case::Instrumental),
            5 => Ok(Case::Locative),
            _ => Err(Refusal::WrongSetting),
        }
    }
}

impl TryFrom<u32> for Apostrophe {
    type Error = Refusal;

    ghost try_from_gives = { Numbered apostrophe_number 3 };

    fn try_from(number: u32) -> Result<Apostrophe, Refusal> {
        match number {
            0 => Ok(Apostrophe::Letter),
            1 => Ok(Apostrophe::Quotation),
            2 => Ok(Apostrophe::Ascii),
            _ => Err(Refusal::WrongSetting),
        }
    }
}

impl TryFrom<u32> for Style {
    type Error = Refusal;

    ghost try_from_gives = { Numbered style_number 2 };

    fn try_from(number: u32) -> Result<Style, Refusal> {
        match number {
            0 => Ok(Style::Ported),
            1 => Ok(Style::School),
            _ => Err(Refusal::WrongSetting),
        }
    }
}

impl Ukrainian {
    // The settings with these numbers, which come from a host.
    pub fn new(
        gender: u32,
        number: u32,
        case: u32,
        apostrophe: u32,
        style: u32,
    ) -> Result<Ukrainian, Refusal>
        ensures { Chooses result (ukrainian_settings gender number case apostrophe style) }
    {
        Ok(Ukrainian {
            gender: Gender::try_from(gender)?,
            number: Number::try_from(number)?,
            case: Case::try_from(case)?,
            apostrophe: Apostrophe::try_from(apostrophe)?,
            style: Style::try_from(style)?,
        })
    }
}

impl From<Ukrainian> for Settings {
    ghost from_gives = { λ settings numbers. numbers ≡ numbers_of settings };

    fn from(settings: Ukrainian) -> Settings {
        Settings {
            gender: settings.gender as u8,
            number: settings.number as u8,
            case: settings.case as u8,
            reformed: 0,
            region: 0,
            apostrophe: settings.apostrophe as u8,
            style: settings.style as u8,
        }
    }
}
