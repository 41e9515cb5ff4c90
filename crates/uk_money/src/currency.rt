// A currency, by its place among the codes.
ghost use Rattle.std.specs.Prelude.{◌≡◌, ◌≤◌, ◌<◌, ◌↔◌, IfSome, IsNone};

// How many currencies there are.
pub const CURRENCIES: usize = 44;

// A currency, by its place.
#[derive(Clone, Copy)]
pub struct CurrencyId {
    pub place: usize,
    ghost known: { place < 44 },
}

impl CurrencyId {
    // The currency at a place, if there is one.
    pub fn new(place: usize) -> Option<CurrencyId>
        ensures found { IfSome result (λ id. id.place ≡ place) }
        ensures none { IsNone result ↔ (44 ≤ place) }
    {
        if place < CURRENCIES {
            Some(CurrencyId { place })
        } else {
            None
        }
    }
}
