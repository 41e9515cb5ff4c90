// The sum of a tally's places.
ghost use Rattle.std.specs.Prelude.{◌+◌, ◌-◌, ◌*◌, ◌≤◌, ◌<◌, length, set, take, drop, IfSome};
ghost use Rattle.tally.specs.Tally.{in_hundredths, sum_in};
ghost use Rattle.tally.specs.Layout.{places_in};
ghost use Rattle.tally.specs.Sums.{IsSum};

use crate::{HEAD, HUNDREDTHS, PLACE, PLACES, Place, Sum, WHOLE};
use base::loads::get8;

// A sum and the places from one up to another more; the hundredths are only added up.
fn plus_places(tally: &[u8], from: usize, to: usize, sum: Sum) -> Option<Sum>
    requires { (from ≤ to) × (to ≤ 64) × (837 ≤ length tally.now) × (sum.hundredths < 65536) }
    ensures sum { IsSum result (in_hundredths sum.whole sum.hundredths + sum_in (take (to - from) (drop from (places_in 64 (drop 5 tally.now))))) }
    ensures hundredths_bound { IfSome result (λ s. s.hundredths ≤ sum.hundredths + 255 * (to - from)) }
{
    let Sum {
        mut whole,
        mut hundredths,
    } = sum;
    for i in from..to {
        let at = HEAD + i * PLACE;
        whole = whole.checked_add(get8(tally, at + WHOLE))?;
        hundredths += u32::from(tally[at + HUNDREDTHS]);
    }
    Some(Sum { whole, hundredths })
}

// A sum with the hundredths carried over to its whole part.
fn carried(sum: Sum) -> Option<Sum>
    ensures sum { IsSum result (in_hundredths sum.whole sum.hundredths) }
    ensures hundredths_bound { IfSome result (λ s. s.hundredths < 100) }
{
    let carry = u64::from(sum.hundredths / 100);
    Some(Sum {
        whole: sum.whole.checked_add(carry)?,
        hundredths: sum.hundredths % 100,
    })
}

// The sum of a tally's places with another one in one place.
pub fn sum_with(tally: &[u8], i: usize, place: Place) -> Option<Sum>
    requires { (i < 64) × (place.hundredths < 100) × (837 ≤ length tally.now) }
    ensures sum { IsSum result (sum_in (set (places_in 64 (drop 5 tally.now)) i place)) }
    ensures hundredths_bound { IfSome result (λ s. s.hundredths < 100) }
{
    let own = Sum {
        whole: place.whole,
        hundredths: place.hundredths,
    };
    let before = plus_places(tally, 0, i, own)?;
    carried(plus_places(tally, i + 1, PLACES, before)?)
}
