#![tactic(auto)]
// The settings of a call, of each language in a record of its own, and how they are made of a host's numbers.
mod french; // french.rt
mod ukrainian; // ukrainian.rt

pub use french::{French, Region, Spelling};
pub use ukrainian::{Apostrophe, Case, Gender, Number, Style, Ukrainian};

// 01's numbers of a call's settings, and any other numbers: small, so that a copy costs little. A language leaves the fields that it does not have at 0.
#[derive(Clone, Copy)]
pub struct Settings {
    pub gender: u8,
    pub number: u8,
    pub case: u8,
    pub reformed: u8,
    pub region: u8,
    pub apostrophe: u8,
    pub style: u8,
}
