// French settings.
ghost use Rattle.std.specs.Prelude.{◌≡◌};
ghost use Rattle.settings.specs.Settings.{french_settings};
ghost use Rattle.settings.specs.Chosen.{spelling_number, region_number, french_numbers_of, Numbered, ChoosesFrench};

use crate::Settings;
use base::Refusal;

// How words are joined: by spaces, or by hyphens as reformed.
#[derive(Clone, Copy, PartialEq, Eq)]
pub enum Spelling {
    Old,
    Reformed,
}

// France, Belgium or Switzerland.
#[derive(Clone, Copy, PartialEq, Eq)]
pub enum Region {
    Fr,
    Be,
    Ch,
}

#[derive(Clone, Copy, PartialEq, Eq)]
pub struct French {
    pub feminine: bool,
    pub spelling: Spelling,
    pub region: Region,
}

impl TryFrom<u32> for Spelling {
    type Error = Refusal;

    ghost try_from_gives = { Numbered spelling_number 2 };

    fn try_from(number: u32) -> Result<Spelling, Refusal> {
        match number {
            0 => Ok(Spelling::Old),
            1 => Ok(Spelling::Reformed),
            _ => Err(Refusal::WrongSetting),
        }
    }
}

impl TryFrom<u32> for Region {
    type Error = Refusal;

    ghost try_from_gives = { Numbered region_number 3 };

    fn try_from(number: u32) -> Result<Region, Refusal> {
        match number {
            0 => Ok(Region::Fr),
            1 => Ok(Region::Be),
            2 => Ok(Region::Ch),
            _ => Err(Refusal::WrongSetting),
        }
    }
}

impl French {
    // The settings with these numbers, which come from a host.
    pub fn new(feminine: u32, reformed: u32, region: u32) -> Result<French, Refusal>
        ensures { ChoosesFrench result (french_settings feminine reformed region) }
    {
        if 1 < feminine {
            return Err(Refusal::WrongSetting);
        }
        Ok(French {
            feminine: feminine == 1,
            spelling: Spelling::try_from(reformed)?,
            region: Region::try_from(region)?,
        })
    }
}

impl From<French> for Settings {
    ghost from_gives = { λ settings numbers. numbers ≡ french_numbers_of settings };

    fn from(settings: French) -> Settings {
        Settings {
            gender: u8::from(settings.feminine),
            number: 0,
            case: 0,
            reformed: settings.spelling as u8,
            region: settings.region as u8,
            apostrophe: 0,
            style: 0,
        }
    }
}
