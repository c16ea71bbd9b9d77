ghost use Rattle.std.specs.Prelude.{◌≡◌, ◌+◌, ◌^◌, ◌<◌, ◌≤◌};
ghost use Rattle.sharing.specs.Cards.{terms};
ghost use Rattle.sharing.specs.Rules.{at};
ghost use Rattle.sharing.specs.Turns.{turns};
ghost use Rattle.sharing.specs.ByTurns.{turns_ordered};

use crate::card::Card;
use crate::line_up::LineUp;
use crate::order::{Holding, Place, PlaceOrder};

// The places stand by turns: the smaller number beyond the target first, and of equals the earlier lane.
#[derive(Clone, Copy, Debug, Default, PartialEq, Eq)]
pub struct Turns;

// A shed whose lanes take turns.
pub type TurnRule = LineUp<Turns>;

// How far a place is beyond its lane's target, beside another lane: with both targets added, so that it is not below 0.
fn beyond_target(card: &Card, place: Place, beside: usize) -> u64
    ensures value { result ≡ place.number + at (terms card.now).targets beside }
    ensures small { result < 2 ^ 33 }
    ensures of_lots { place.number ≤ 65536 → result < 2 ^ 31 }
{
    place.number as u64 + card.target_of(beside) as u64
}

impl PlaceOrder for Turns {
    ghost standing = { λ _. turns };

    ghost ordered = { λ o. turns_ordered };

    fn before(&self, card: &Card, first: Place, second: Place) -> bool {
        let ours = beyond_target(card, first, second.lane);
        let theirs = beyond_target(card, second, first.lane);
        (ours, first.lane) < (theirs, second.lane)
    }

    fn gains(&self, card: &Card, from: Holding, to: Holding) -> bool {
        let after = beyond_target(card, to.next(), from.lane) + 1;
        after <= beyond_target(card, from.last(), to.lane)
    }
}
