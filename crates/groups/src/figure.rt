// What a reader of numbers gives: a number with its sign.
ghost use Rattle.std.specs.Prelude.{◌≡◌, ◌<◌};
ghost use Rattle.groups.specs.Read.{read_of, read_in};

use crate::Number;

// A number with its sign, as it was read; 0 has none.
#[derive(Clone, Copy)]
pub struct Figure<const N: usize> {
    pub minus: bool,
    pub number: Number<N>,
}

impl<const N: usize> Figure<N> {
    // What bytes are that stand, or do not, as the phrase of a number with this sign.
    pub fn read(number: Number<N>, minus: bool, stands: bool) -> Option<Self>
        requires { 0 < N }
        ensures { result ≡ read_of stands minus number.entry }
    {
        if stands {
            Some(Figure {
                minus: minus && !number.is(0),
                number,
            })
        } else {
            None
        }
    }
}

impl<const N: usize> Number<N> {
    // The same of a number that is lent: its sign, or nothing.
    pub fn sign_read(&self, minus: bool, stands: bool) -> Option<bool>
        requires { 0 < N }
        ensures { read_in result self.now ≡ read_of stands minus self.now }
    {
        if stands {
            Some(minus && !self.is(0))
        } else {
            None
        }
    }
}
