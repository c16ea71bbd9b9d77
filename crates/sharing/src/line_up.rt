ghost use Rattle.std.specs.Prelude.{◌≡◌};
ghost use Rattle.sharing.specs.LineUp.{line_up, rule_of, Front};
ghost use Rattle.sharing.specs.Cards.{terms};
ghost use Rattle.sharing.specs.Rules.{on_card};
ghost use Rattle.sharing.specs.Laws;

use crate::card::Card;
use crate::line::Line;
use crate::order::{Holding, PlaceOrder};
use crate::rule::SharingRule;

// The rule of an order: all places of the shed stand in line, and as many from the front are kept as the cap allows.
#[derive(Clone, Copy, Debug, Default, PartialEq, Eq)]
pub struct LineUp<O> {
    order: O,
}

impl<O> LineUp<O> {
    pub fn of(order: O) -> LineUp<O>
        ensures { result.order ≡ order }
    {
        LineUp { order }
    }
}

impl<O: PlaceOrder> LineUp<O> {
    // How many lots each lane keeps: the front of the line. Every place that is kept stands before every place that is
    // not.
    pub fn keeps(&self, card: &Card, supply: &[u16; 8]) -> [u16; 8]
        ensures line_up { on_card (terms card.now) result ≡ on_card (terms card.now) (line_up (O.PlaceOrder.standing self.now.order) (terms card.now) supply.now) }
        ensures front { Front (O.PlaceOrder.standing self.now.order) (terms card.now) supply.now result }
    {
        Line {
            order: &self.order,
            card,
            supply,
        }
        .front()
    }
}

impl<O: PlaceOrder> SharingRule for LineUp<O> {
    ghost meaning = { λ r. rule_of (O.PlaceOrder.standing r.order) };

    ghost lawful = { λ r. Laws.lawful (O.PlaceOrder.standing r.order) (O.PlaceOrder.ordered r.order) };

    fn choice(&self, card: &Card, supply: &[u16; 8]) -> [u16; 8] {
        self.keeps(card, supply)
    }

    fn gain(&self, card: &Card, filling: &[u16; 8], a: usize, b: usize) -> bool {
        let from = Holding::of(filling, a);
        let to = Holding::of(filling, b);
        let no_move = a == b
            || a >= card.lanes.len()
            || b >= card.lanes.len()
            || from.lots == 0
            || to.lots >= card.capacity_of(b);
        !no_move && self.order.gains(card, from, to)
    }
}
