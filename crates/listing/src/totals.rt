ghost use Rattle.std.specs.Prelude.{Some};
ghost use Rattle.listing.specs.Lines.{totals_line};

use books::totals::Totals;
use std::fmt;

// What the book has altogether, in one line.
#[derive(Clone, Copy)]
pub(crate) struct TotalsLine(pub(crate) Totals);

impl fmt::Display for TotalsLine {
    ghost output = { λ t. Some (totals_line t.0) };

    fn fmt<W: fmt::Write>(&self, f: &mut fmt::Formatter<W>) -> fmt::Result {
        let Totals {
            sheds,
            lanes,
            caps,
            targets,
            capacities,
            ranked,
        } = self.0;
        write!(
            f,
            "totals: sheds {sheds}, lanes {lanes}, caps {caps}, targets {targets}, capacities {capacities}, lots ranked {ranked}"
        )
    }
}
