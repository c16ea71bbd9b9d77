ghost use Rattle.std.specs.Prelude.{◌≡◌, ◌+◌};
ghost use Rattle.sharing.specs.Cards.{terms};
ghost use Rattle.sharing.specs.Orders.{Standing, Ordered};
ghost use Rattle.sharing.specs.Rules.{at};

use crate::card::Card;

// A place of a shed: a lane of the card and a number from 1.
#[derive(Clone, Copy, Debug, PartialEq, Eq)]
pub struct Place {
    pub lane: usize,
    pub number: u32,
}

// A lane and how many lots it holds.
#[derive(Clone, Copy, Debug, PartialEq, Eq)]
pub struct Holding {
    pub lane: usize,
    pub lots: u16,
}

impl Holding {
    // What a lane holds at a filling, 0 off it.
    pub fn of(filling: &[u16; 8], lane: usize) -> Holding
        ensures { result ≡ record { lane = lane; lots = at filling.now lane } }
    {
        Holding {
            lane,
            lots: filling.get(lane).copied().unwrap_or(0),
        }
    }

    // The place of the last lot that it holds.
    pub fn last(self) -> Place
        ensures { result ≡ record { lane = self.lane; number = self.lots } }
    {
        Place {
            lane: self.lane,
            number: self.lots as u32,
        }
    }

    // The place that one lot more would have.
    pub fn next(self) -> Place
        ensures { result ≡ record { lane = self.lane; number = self.lots + 1 } }
    {
        Place {
            lane: self.lane,
            number: self.lots as u32 + 1,
        }
    }
}

// The order in which the places of a shed stand in line, and when the shed gains by a move.
pub trait PlaceOrder {
    ghost standing: { Self → Standing };

    // Does the first place stand before the second?
    fn before(&self, card: &Card, first: Place, second: Place) -> bool
        ensures { result ≡ (standing self.now).before (terms card.now) first.lane first.number second.lane second.number };

    // Does the shed gain by moving a lot from the one lane to the other?
    fn gains(&self, card: &Card, from: Holding, to: Holding) -> bool
        ensures { result ≡ (standing self.now).gains (terms card.now) from.lane from.lots to.lane to.lots };

    ghost ordered: { (o : Self) → Ordered (standing o) };
}
