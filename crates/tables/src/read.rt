ghost use Rattle.std.specs.Prelude.{◌≡◌, ◌<◌, length};
ghost use Rattle.tables.specs.Cuts.{slash, arrow, pieces};
ghost use Rattle.tables.specs.Numbers.{number};
ghost use Rattle.tables.specs.Questions.{asks, asked, capped, move_of, lane_of, fitted, with_move, with_lane, with_word, question};

use crate::complaint::Complaint;
use crate::cut::{cut, is_blank};
use crate::number::number_of;
use crate::question::{LaneWord, Move, Question};
use sharing::card::Card;

impl LaneWord {
    fn read(word: &[u8]) -> Option<LaneWord>
        ensures { result ≡ lane_of (pieces slash word.now) }
    {
        let (capacity, rest) = cut(word, b'/')?;
        let (target, number) = cut(rest, b'/')?;
        Some(LaneWord {
            capacity: number_of(capacity)?,
            target: number_of(target)?,
            number: number_of(number)?,
        })
    }
}

impl Move {
    fn read(word: &[u8]) -> Option<Move>
        ensures { result ≡ move_of (pieces arrow word.now) }
    {
        let (from, to) = cut(word, b'>')?;
        Some(Move {
            from: usize::from(number_of(from)?),
            to: usize::from(number_of(to)?),
        })
    }
}

impl Question {
    // The question that a line asks, or the first fault of its first word that has one.
    pub fn read(line: &[u8]) -> Result<Question, Complaint>
        ensures { asked result ≡ question line.now }
    {
        let mut words = line
            .split(|byte| is_blank(*byte))
            .filter(|word| !word.is_empty());
        let cap = words.next().ok_or(Complaint::NoCap)?;
        words.try_fold(Question::with_cap(cap)?, |question, word| {
            question.with_word(word)
        })
    }

    // The question of the first word: a card without lanes.
    fn with_cap(word: &[u8]) -> Result<Question, Complaint>
        ensures { asked result ≡ capped (number word.now) }
    {
        let cap = number_of(word).ok_or(Complaint::WrongCap)?;
        let card = Card::new(0, cap).ok_or(Complaint::WrongCap)?;
        Ok(Question {
            card,
            numbers: [0; 8],
            moved: None,
        })
    }

    // One word more behind the cap.
    fn with_word(self, word: &[u8]) -> Result<Question, Complaint>
        ensures { asked result ≡ with_word (asks self) word.now }
    {
        if self.moved.is_some() {
            return Err(Complaint::WordBehindMove);
        }
        if word.contains(&b'>') {
            self.with_move(word)
        } else {
            self.with_lane(word)
        }
    }

    fn with_move(self, word: &[u8]) -> Result<Question, Complaint>
        ensures { asked result ≡ with_move (asks self) word.now }
    {
        let moved = Move::read(word).ok_or(Complaint::WrongMove)?;
        Ok(Question {
            moved: Some(moved),
            ..self
        })
    }

    fn with_lane(self, word: &[u8]) -> Result<Question, Complaint>
        ensures { asked result ≡ with_lane (asks self) word.now }
    {
        let at = self.card.lanes.len();
        if at >= 8 {
            return Err(Complaint::NinthLane);
        }
        let lane = LaneWord::read(word).ok_or(Complaint::WrongLane { lane: at })?;
        self.with_fit(lane)
    }

    // One lane more on the card, if its numbers fit.
    fn with_fit(self, lane: LaneWord) -> Result<Question, Complaint>
        requires { length self.card.lanes.items < 8 }
        ensures { asked result ≡ fitted (asks self) lane }
    {
        let at = self.card.lanes.len();
        if lane.capacity > 4095 {
            return Err(Complaint::CapacityTooLarge { lane: at });
        }
        if lane.target > lane.capacity {
            return Err(Complaint::TargetAboveCapacity { lane: at });
        }
        let card = self
            .card
            .with_lane(lane.target, lane.capacity)
            .ok_or(Complaint::TargetsAboveCap { lane: at })?;
        let mut numbers = self.numbers;
        numbers[at] = lane.number;
        Ok(Question {
            card,
            numbers,
            ..self
        })
    }
}
