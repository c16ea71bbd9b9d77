ghost use Rattle.std.specs.Prelude.{◌≡◌, ◌<◌, ◌≤◌, true, false, is_ok, length, if◌then◌else◌};
ghost use Rattle.books.specs.Lanes.{has};
ghost use Rattle.books.specs.Contents.{contents, nothing, with_shed, with_lane, with_record, with_lot, last_terms, lane_of};
ghost use Rattle.sharing.specs.Cards.{overtargeted};

use crate::book::Book;
use crate::lane::Lane;
use rows::row::Row;
use sharing::card::Card;
use sheets::fault::Refusal;

impl Book {
    // The empty book: no shed, no lane.
    pub fn new() -> Book
        ensures { contents result ≡ nothing }
    {
        Book {
            cards: Row::new(Card::new(0, 0).unwrap()),
            lanes: Row::new(Lane::new(0, 0)),
        }
    }

    // One shed more, without lanes.
    pub(super) fn add_shed(&mut self, cap: u16)
        requires room { length (contents self.old).sheds < 8 }
        requires small { «cap» ≤ 4095 }
        ensures { contents self.new ≡ with_shed (contents self.old) «cap» }
    {
        let card = Card::new(self.cards.len() as u8, cap).unwrap();
        self.cards.push(card).unwrap();
    }

    // One lane more in the last shed, without a ranking; refused where the targets do not allow it, and then nothing moves.
    pub(super) fn add_lane(&mut self, target: u16, capacity: u16) -> Result<(), Refusal>
        requires shed { 0 < length (contents self.old).sheds }
        requires lanes { length (contents self.old).lanes < 32 }
        requires room { length (last_terms (contents self.old)).capacities < 8 }
        requires small { capacity ≤ 4095 }
        ensures answer { result ≡ (if overtargeted (last_terms (contents self.old)) target capacity then Err Refusal.Overtargeted else Ok tt) }
        ensures book { contents self.new ≡ (if is_ok result then with_lane (contents self.old) target capacity else contents self.old) }
    {
        let shed = self.cards.len() - 1;
        let card = self.cards.last_mut().unwrap();
        let place = card.lanes.len();
        *card = card
            .with_lane(target, capacity)
            .ok_or(Refusal::Overtargeted)?;
        self.lanes.push(Lane::new(shed as u8, place as u8)).unwrap();
        Ok(())
    }

    // A ranking record for a lane.
    pub(super) fn begin_record(&mut self, lane: usize)
        ensures { contents self.new ≡ with_record (contents self.old) lane }
    {
        if let Some(lane) = self.lanes.get_mut(lane) {
            lane.begin_record();
        }
    }

    // One lot more, the lowest so far, in a lane's ranking.
    pub(super) fn rank(&mut self, lane: usize, lot: u8)
        requires recorded { (lane_of (contents self.old) lane).recorded ≡ true }
        requires fresh { has (lane_of (contents self.old) lane).ranking lot ≡ false }
        ensures { contents self.new ≡ with_lot (contents self.old) lane lot }
    {
        if let Some(lane) = self.lanes.get_mut(lane) {
            lane.rank(lot);
        }
    }
}
