ghost use Rattle.std.specs.Prelude.{◌≡◌, ℕ, ◌<◌, IfSome, replicate};
ghost use Rattle.std.specs.Option.{option_map};
ghost use Rattle.sharing.specs.LineUp.{pick, deal};
ghost use Rattle.sharing.specs.Cards.{terms};
ghost use Rattle.sharing.specs.Line.{place_after, open_place, earlier};
ghost use Rattle.sharing.specs.Rules.{at, lanes, places};

use crate::card::Card;
use crate::order::{Holding, Place, PlaceOrder};

// The places that the lanes of a shed have for a supply, in line by an order.
#[derive(Drop)]
pub(crate) struct Line<'a, O> {
    pub(crate) order: &'a O,
    pub(crate) card: &'a Card,
    pub(crate) supply: &'a [u16; 8],
}

impl<O: PlaceOrder> Line<'_, O> {
    // How many places a lane has.
    fn places(&self, lane: usize) -> u16
        ensures { result ≡ places (terms self.now.card.now) self.now.supply.now lane }
    {
        let supplied = Holding::of(self.supply, lane).lots;
        supplied.min(self.card.capacity_of(lane))
    }

    // The next place of a lane; none if it keeps as many as it has places.
    fn open_place(&self, kept: &[u16; 8], lane: usize) -> Option<Place>
        ensures { result ≡ open_place (terms self.now.card.now) self.now.supply.now kept.now lane }
    {
        let holding = Holding::of(kept, lane);
        (holding.lots < self.places(lane)).then(|| holding.next())
    }

    // Of two places that which stands first.
    fn earlier(&self, one: Place, other: Place) -> Place
        ensures { result ≡ earlier (O.PlaceOrder.standing self.now.order.now) (terms self.now.card.now) one other }
    {
        if self.order.before(self.card, other, one) {
            other
        } else {
            one
        }
    }

    // Of the next places of all lanes that which stands first; none if no lane has room.
    fn next_place(&self, kept: &[u16; 8]) -> Option<Place>
        ensures place { result ≡ option_map (place_after kept.now) (pick (O.PlaceOrder.standing self.now.order.now) (terms self.now.card.now) self.now.supply.now kept.now (lanes (terms self.now.card.now))) }
        ensures room { IfSome result (λ p. (p.lane < 8) × (at kept.now p.lane < 65535)) }
    {
        (0..self.card.lanes.len())
            .filter_map(|lane| self.open_place(kept, lane))
            .reduce(|one, other| self.earlier(one, other))
    }

    // How many places of each lane are at the front, which is as long as the cap allows. They are dealt out one at a
    // time.
    pub(crate) fn front(&self) -> [u16; 8]
        ensures { result ≡ deal (O.PlaceOrder.standing self.now.order.now) (terms self.now.card.now) self.now.supply.now self.now.card.now.«cap» (replicate 8 0) }
    {
        let mut kept = [0u16; 8];
        for _ in 0..self.card.cap {
            let Some(place) = self.next_place(&kept) else {
                break;
            };
            kept[place.lane] += 1;
        }
        kept
    }
}
