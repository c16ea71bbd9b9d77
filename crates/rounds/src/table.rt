ghost use Rattle.rounds.specs.Lots.{board_from, RoundFacts};

use crate::lots::Lots;
use crate::table::leaver::Application;
use boards::outcome::Outcome;
use boards::wishes::Wishes;
use books::book::Book;
use sharing::rule::SharingRule;
use sheets::fault::{Fault, Refusal};
use sheets::slip::take_apart;

mod leaver;

// The book and the lots of a round.
#[derive(Drop)]
pub struct Table {
    book: Book,
    lots: Lots,
    ghost facts: { RoundFacts (board_from book lots) },
}

impl Table {
    ghost use Rattle.std.specs.Prelude.{◌≡◌, ◌-◌};
    ghost use Rattle.books.specs.Contents.{contents};
    ghost use Rattle.boards.specs.Boards.{begun, slip_of, lot_of, enter, application, outcome_of, apply, settle};
    ghost use Rattle.rounds.specs.Tables.{board};

    // Every lot is absent.
    pub(crate) fn new(book: &Book) -> Table
        ensures { board result ≡ begun (contents book.now) }
    {
        Table {
            book: *book,
            lots: Lots::new(),
        }
    }

    // The list and the line of each lot, and the count.
    pub(crate) fn lots(&self) -> &Lots
        ensures { result.now ≡ self.now.lots }
    {
        &self.lots
    }

    // Enters a slip and answers its lot.
    pub(crate) fn enter(&mut self, slip: &[u32]) -> Result<u8, Fault>
        ensures answer { result ≡ lot_of (slip_of (board self.old) slip.now) }
        ensures board { board self.new ≡ enter (board self.old) slip.now }
    {
        let (lot, rest) = take_apart(slip)?;
        let lot = u8::try_from(lot).map_err(|_| Fault::new(Refusal::Unknown, 0))?;
        if self.lots.lists.of(lot as usize).is_some() {
            return Err(Fault::new(Refusal::Twice, 0));
        }
        let list = Wishes::read(rest, &self.book)?;
        self.lots.enter(lot, list);
        Ok(lot)
    }

    // A looking lot applies to its next wish.
    pub(crate) fn apply<R: SharingRule>(&mut self, rule: &R, lot: usize) -> Result<Outcome, Fault>
        ensures answer { result ≡ outcome_of (application (R.SharingRule.meaning rule.now) (board self.old) lot) }
        ensures board { board self.new ≡ apply (R.SharingRule.meaning rule.now) (board self.old) lot }
    {
        let idle = Fault::new(Refusal::Idle, 0);
        let lane = self.lots.next_wish(lot).ok_or(idle)?;
        let lot = lot as u8;
        let leaver = self.leaver(rule, Application { lot, lane });
        Ok(self.lots.apply(lot, leaver))
    }

    // The lowest looking lot applies until none looks; answers how many applications that took.
    pub(crate) fn settle<R: SharingRule>(&mut self, rule: &R) -> u32
        ensures answer { result ≡ (settle (R.SharingRule.meaning rule.now) (board self.old)).count - (board self.old).count }
        ensures board { board self.new ≡ settle (R.SharingRule.meaning rule.now) (board self.old) }
    {
        let before = self.lots.count;
        while let Some(lot) = self.lots.lines.lowest_looking() {
            let _ = self.apply(rule, lot);
        }
        self.lots.count - before
    }
}
