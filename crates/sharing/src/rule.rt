ghost use Rattle.std.specs.Prelude.{◌≡◌};
ghost use Rattle.sharing.specs.Cards.{terms};
ghost use Rattle.sharing.specs.Rules.{Meaning, Lawful, gains, on_card};

use crate::card::Card;

// How the lanes of a shed share its store. A rule is asked two questions about the shed's card, and refuses neither.
pub trait SharingRule {
    // What the rule answers to each question.
    ghost meaning: { Self → Meaning };

    // How many lots each lane keeps of a supply. What the array holds off the card is no part of the answer.
    fn choice(&self, card: &Card, supply: &[u16; 8]) -> [u16; 8]
        ensures { on_card (terms card.now) result ≡ on_card (terms card.now) ((meaning self.now).choice (terms card.now) supply.now) };

    // Does the shed gain by moving one lot from lane a to lane b?
    fn gain(&self, card: &Card, filling: &[u16; 8], a: usize, b: usize) -> bool
        ensures { result ≡ gains (meaning self.now) (terms card.now) filling.now a b };

    ghost lawful: { (r : Self) → Lawful (meaning r) };
}
