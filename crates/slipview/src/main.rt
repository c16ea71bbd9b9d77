// Shows a day for a person: is its sheet fit to open, are its slips fit to enter, and what do they say?
#![tactic(auto)]

use crate::slips::ListLines;
use books::book::Book;
use days::open::open_day;
use intake::enter::{enter_day, slip_count};
use listing::book::BookLines;
use listing::input::read_input;
use rounds::round::Round;
use sharing::line_up::LineUp;
use sharing::turns::{TurnRule, Turns};
use sheets::fault::Fault;

mod slips;

fn main(rt: HostRuntime) -> anyhow::Result<()> {
    let input = read_input(rt.stdin(), rt.alloc())?;
    let mut book = Book::new();
    match read_day(&input, &mut book) {
        Ok(round) => {
            let slips = slip_count(&round);
            let lists = ListLines {
                round: &round,
                lots: 256,
            };
            print!(rt; "{}slips: {slips}\n{lists}", BookLines(&book))?;
        }
        Err(fault) => println!(rt; "{fault}")?,
    }
    Ok(())
}

// The book of a day, and its round. The slips say the same under every rule, since nobody applies.
fn read_day(bytes: &[u8], book: &mut Book) -> Result<Round<TurnRule>, Fault> {
    open_day(bytes, book)?;
    enter_day(bytes, LineUp::of(Turns))
}
