ghost use Rattle.std.specs.Prelude.{◌≡◌, map};
ghost use Rattle.tables.specs.Answers.{answered, gained};
ghost use Rattle.tables.specs.Questions.{asks};
ghost use Rattle.tables.specs.Told.{tells};

use crate::answer::{Answer, Gain, Kept};
use crate::question::{Move, Question};
use rows::row::Row;
use sharing::line_up::LineUp;
use sharing::rule::SharingRule;
use sharing::shares::Shares;
use sharing::turns::Turns;

impl Question {
    // What both rules answer.
    pub fn answer(&self) -> Answer
        ensures { tells result ≡ answered (asks self.now) }
    {
        Answer {
            kept: self.keeps(),
            gain: self.moved.map(|moved| self.gain(moved)),
        }
    }

    // How many lots each lane of the card keeps, the numbers being its supply.
    fn keeps(&self) -> Row<Kept, 8>
        ensures turns { map (λ k. k.turns) result.items ≡ (answered (asks self.now)).turns }
        ensures shares { map (λ k. k.shares) result.items ≡ (answered (asks self.now)).shares }
    {
        let turns = LineUp::of(Turns).keeps(&self.card, &self.numbers);
        let shares = LineUp::of(Shares).keeps(&self.card, &self.numbers);
        let mut kept = Row::new(Kept {
            turns: 0,
            shares: 0,
        });
        for (turns, shares) in turns.iter().zip(&shares).take(self.card.lanes.len()) {
            let keeps = Kept {
                turns: *turns,
                shares: *shares,
            };
            kept.push(keeps).unwrap();
        }
        kept
    }

    // Does the shed gain by the move, the numbers being its filling?
    fn gain(&self, moved: Move) -> Gain
        ensures { result ≡ gained (asks self.now) moved }
    {
        let Move { from, to } = moved;
        Gain {
            turns: LineUp::of(Turns).gain(&self.card, &self.numbers, from, to),
            shares: LineUp::of(Shares).gain(&self.card, &self.numbers, from, to),
        }
    }
}
