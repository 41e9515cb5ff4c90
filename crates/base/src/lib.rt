#![tactic(auto)]
// What every crate shares: a call's answer, a measure, and loads of several bytes.
pub mod loads; // loads.rt: several bytes at a time

ghost use Rattle.std.specs.Prelude.{◌≡◌, List, ℕ, ◌<◌, length as length_of};
ghost use Rattle.base.specs.Measure.{spaces as spaces_in, size_of};
ghost use Rattle.base.specs.Refused.{refusal_number, refusal_length, answer_of, measure_in};

// Why a call is refused.
#[derive(Clone, Copy, PartialEq, Eq)]
pub enum Refusal {
    WrongSetting,
    WrongCode,
    Malformed,
    WrongSign,
    TooLarge,
    NoSentence,
    /// With the length needed.
    NoRoom(usize),
    TallyFull,
    SumTooLarge,
    NotHeld,
}

impl Refusal {
    /// The number by which a host knows it.
    pub fn number(self) -> u32
        ensures { result ≡ refusal_number self }
    {
        match self {
            Refusal::WrongSetting => 1,
            Refusal::WrongCode => 2,
            Refusal::Malformed => 3,
            Refusal::WrongSign => 4,
            Refusal::TooLarge => 5,
            Refusal::NoSentence => 6,
            Refusal::NoRoom(_) => 7,
            Refusal::TallyFull => 8,
            Refusal::SumTooLarge => 9,
            Refusal::NotHeld => 10,
        }
    }

    /// The length that it reports.
    pub fn length(self) -> usize
        ensures { result ≡ refusal_length self }
    {
        match self {
            Refusal::NoRoom(needed) => needed,
            _ => 0,
        }
    }
}

// A call's answer as a host gets it: 0 and the answer's length, or a refusal's number and 0, or for 7 the length needed.
#[repr(C)]
#[derive(Clone, Copy)]
pub struct Answer {
    pub number: u32,
    pub length: usize,
}

impl From<Result<usize, Refusal>> for Answer {
    ghost from_gives = { λ told answer. answer ≡ answer_of told };

    fn from(told: Result<usize, Refusal>) -> Answer {
        match told {
            Ok(length) => Answer { number: 0, length },
            Err(refusal) => Answer {
                number: refusal.number(),
                length: refusal.length(),
            },
        }
    }
}

// What a phrase measures.
#[derive(Clone, Copy)]
pub struct Size {
    pub words: u32,
    pub length: usize,
}

// The size of a phrase of so many spaces, of which there may be one more, and this length.
pub fn size_of(spaces: u32, length: usize) -> Size
    requires { spaces < 4294967295 }
    ensures { (phrase : List ℕ) → spaces ≡ spaces_in phrase → length ≡ length_of phrase → result ≡ size_of phrase }
{
    Size {
        words: spaces + 1,
        length,
    }
}

// What a measuring call answers: 0 with the phrase's words and its length in bytes, or a refusal's number and no more.
#[repr(C)]
#[derive(Clone, Copy)]
pub struct Measure {
    pub refusal: u32,
    pub words: u32,
    pub length: usize,
}

impl From<Result<Size, Refusal>> for Measure {
    ghost from_gives = { λ told measure. measure ≡ measure_in told };

    fn from(told: Result<Size, Refusal>) -> Measure {
        match told {
            Ok(size) => Measure {
                refusal: 0,
                words: size.words,
                length: size.length,
            },
            Err(refusal) => Measure {
                refusal: refusal.number(),
                words: 0,
                length: 0,
            },
        }
    }
}
