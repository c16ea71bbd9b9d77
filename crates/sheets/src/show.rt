ghost use Rattle.std.specs.Prelude.{Some};
ghost use Rattle.sheets.specs.Shown.{layer_name, refusal_line};

use crate::fault::{Fault, Layer};
use std::error::Error;
use std::fmt;

// A layer as a refusal line names it.
impl fmt::Display for Layer {
    ghost output = { λ l. Some (layer_name l) };

    fn fmt<W: fmt::Write>(&self, f: &mut fmt::Formatter<W>) -> fmt::Result {
        f.write_str(match self {
            Layer::Input => "input",
            Layer::Word => "word",
            Layer::Record => "record",
            Layer::Book => "book",
            Layer::Round => "round",
            Layer::Plan => "plan",
        })
    }
}

// The line that a program prints after a refusal.
impl fmt::Display for Fault {
    ghost output = { λ f. Some (refusal_line f) };

    fn fmt<W: fmt::Write>(&self, f: &mut fmt::Formatter<W>) -> fmt::Result {
        let number = self.refusal().number();
        let place = self.place();
        let layer = self.layer();
        write!(f, "refused {number} at {place} in {layer}")
    }
}

impl Error for Fault {}
