ghost use Rattle.std.specs.Prelude.{◌≡◌, ◌-◌, ◌*◌, ◌≤◌, List};
ghost use Rattle.std.specs.Option.{option_map};
ghost use Rattle.books.specs.Contents.{contents};
ghost use Rattle.books.specs.Laid.{Laid};
ghost use Rattle.boards.specs.Boards.{begun, slip_of, lot_of, enter, application, outcome_of, apply, settle, line_of};
ghost use Rattle.boards.specs.Calls.{enters, applies, settles, EveryRun, GoesOn, AtMostOneGoes, Quiet, SettlesLeast, entered_lots};
ghost use Rattle.boards.specs.Slips.{list_of, list_at};

use crate::table::Table;
use boards::line::Line;
use boards::outcome::Outcome;
use boards::wishes::Wishes;
use books::book::Book;
use sharing::rule::SharingRule;
use sheets::fault::Fault;
use std::marker::Model;

// An open round: it takes slips and applications, under one rule. It cannot be copied.
#[derive(Drop)]
pub struct Round<R: SharingRule> {
    table: Table,
    rule: R,
}

// Clauses see the book, what the table says, with what it has in every round, and the rule.
impl<R: SharingRule> Model for Round<R> {
    ghost use Rattle.std.specs.Prelude.{refl};
    ghost use Rattle.rounds.specs.OpenRounds.{OpenRound};
    ghost use Rattle.rounds.specs.Tables.{board};

    ghost Value = { OpenRound R };

    ghost view = { λ r. record { book = r.table.book; board = board r.table; its_book = refl; facts = r.table.facts; rule = r.rule } };
}

impl<R: SharingRule> Round<R> {
    // Begins a round with a copy of the book. Every lot is absent, and the count is 0.
    pub fn begin(book: &Book, rule: R) -> Round<R>
        ensures board { result.board ≡ begun (contents book.now) }
        ensures rule { result.rule ≡ rule }
        ensures every_run { EveryRun (contents book.now) (R.SharingRule.meaning rule) }
    {
        Round {
            table: Table::new(book),
            rule,
        }
    }

    // Enters a slip and answers its lot. A refused slip moves nothing.
    pub fn enter(&mut self, slip: &[u32]) -> Result<u8, Fault>
        ensures answer { result ≡ lot_of (slip_of self.old.board slip.now) }
        ensures board { self.new.board ≡ enter self.old.board slip.now }
        ensures rule { self.new.rule ≡ self.old.rule }
        ensures goes_on { GoesOn (R.SharingRule.meaning self.old.rule) self.old.board (enters slip.now) self.new.board }
    {
        self.table.enter(slip)
    }

    // A looking lot applies to its next wish; any other number is refused as idle, and nothing moves.
    pub fn apply(&mut self, lot: usize) -> Result<Outcome, Fault>
        ensures answer { result ≡ outcome_of (application (R.SharingRule.meaning self.old.rule) self.old.board lot) }
        ensures board { self.new.board ≡ apply (R.SharingRule.meaning self.old.rule) self.old.board lot }
        ensures rule { self.new.rule ≡ self.old.rule }
        ensures at_most_one_goes { AtMostOneGoes self.old.board lot self.new.board }
        ensures goes_on { GoesOn (R.SharingRule.meaning self.old.rule) self.old.board (applies lot) self.new.board }
    {
        self.table.apply(&self.rule, lot)
    }

    // The lowest looking lot applies until none looks; answers how many applications that took.
    pub fn settle(&mut self) -> u32
        ensures answer { result ≡ (settle (R.SharingRule.meaning self.old.rule) self.old.board).count - self.old.board.count }
        ensures board { self.new.board ≡ settle (R.SharingRule.meaning self.old.rule) self.old.board }
        ensures rule { self.new.rule ≡ self.old.rule }
        ensures few { result ≤ 12 * entered_lots self.old.board.lists }
        ensures quiet { Quiet self.new.board }
        ensures goes_on { GoesOn (R.SharingRule.meaning self.old.rule) self.old.board settles self.new.board }
        ensures least { SettlesLeast (R.SharingRule.meaning self.old.rule) self.old.board self.new.board }
    {
        self.table.settle(&self.rule)
    }

    // The line of a lot; absent above 255.
    pub fn line(&self, lot: usize) -> Line
        ensures { result ≡ line_of self.now.board lot }
    {
        self.table.lots().lines.of(lot)
    }

    // The list of a lot; none if no slip has come for it.
    pub fn list(&self, lot: usize) -> Option<Wishes>
        ensures { option_map list_of result ≡ list_at self.now.board.lists lot }
    {
        self.table.lots().lists.of(lot)
    }

    // How many applications were made. The clause on the book holds of every round.
    pub fn count(&self) -> u32
        ensures count { result ≡ self.now.board.count }
        ensures laid { Laid self.now.board.book }
    {
        self.table.lots().count
    }
}
