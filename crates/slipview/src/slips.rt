ghost use Rattle.std.specs.Prelude.{Some};
ghost use Rattle.boards.specs.Slips.{list_of};
ghost use Rattle.slipview.specs.Slips.{list_line, list_lines};

use boards::wishes::Wishes;
use rounds::round::Round;
use sharing::turns::TurnRule;
use std::fmt;

// A lot and its list in one line, the most wanted lane first.
#[derive(Clone, Copy)]
struct ListLine<'a> {
    lot: usize,
    list: &'a Wishes,
}

impl fmt::Display for ListLine<'_> {
    ghost output = { λ l. Some (list_line l.lot (list_of l.list.now)) };

    fn fmt<W: fmt::Write>(&self, f: &mut fmt::Formatter<W>) -> fmt::Result {
        let lot = self.lot;
        let Some((first, rest)) = self.list.lanes().split_first() else {
            return write!(f, "  lot {lot}: no wishes");
        };
        write!(f, "  lot {lot}: wishes {first}")?;
        for lane in rest {
            write!(f, ", {lane}")?;
        }
        Ok(())
    }
}

// The lists of the first so many lots of a round, each in a line of its own; a lot that no slip has come for has none.
#[derive(Clone, Copy)]
pub(crate) struct ListLines<'a> {
    pub(crate) round: &'a Round<TurnRule>,
    pub(crate) lots: usize,
}

impl fmt::Display for ListLines<'_> {
    ghost output = { λ l. Some (list_lines l.round.now.board.lists l.lots) };

    fn fmt<W: fmt::Write>(&self, f: &mut fmt::Formatter<W>) -> fmt::Result {
        for lot in 0..self.lots {
            if let Some(list) = self.round.list(lot) {
                let line = ListLine { lot, list: &list };
                writeln!(f, "{line}")?;
            }
        }
        Ok(())
    }
}
