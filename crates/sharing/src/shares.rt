ghost use Rattle.std.specs.Prelude.{◌≡◌, ◌^◌, ◌<◌, ◌≤◌};
ghost use Rattle.sharing.specs.Cards.{terms};
ghost use Rattle.sharing.specs.Shares.{shares, weight};
ghost use Rattle.sharing.specs.ByShares.{shares_ordered};

use crate::card::Card;
use crate::line_up::LineUp;
use crate::order::{Holding, Place, PlaceOrder};

// The places stand by shares: the smaller part of the capacity beyond the target first, and of equals the earlier lane.
#[derive(Clone, Copy, Debug, Default, PartialEq, Eq)]
pub struct Shares;

// A shed whose lanes keep in proportion to their capacities.
pub type ShareRule = LineUp<Shares>;

// What a place counts beside another lane.
fn weigh(card: &Card, place: Place, beside: usize) -> u64
    ensures value { result ≡ weight (terms card.now) place.lane place.number beside }
    ensures small { result < 2 ^ 45 }
    ensures of_lots { place.number ≤ 65536 → result < 2 ^ 31 }
{
    place.number as u64 * card.capacity_of(beside) as u64
        + card.target_of(beside) as u64 * card.capacity_of(place.lane) as u64
}

impl PlaceOrder for Shares {
    ghost standing = { λ _. shares };

    ghost ordered = { λ o. shares_ordered };

    fn before(&self, card: &Card, first: Place, second: Place) -> bool {
        let ours = weigh(card, first, second.lane);
        let theirs = weigh(card, second, first.lane);
        (ours, first.lane) < (theirs, second.lane)
    }

    fn gains(&self, card: &Card, from: Holding, to: Holding) -> bool {
        let after = weigh(card, to.next(), from.lane) + card.capacity_of(to.lane) as u64;
        after <= weigh(card, from.last(), to.lane)
    }
}
