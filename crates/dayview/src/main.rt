// Shows a day for a person: is its sheet fit to open, and what does it say?
#![tactic(auto)]

use books::book::Book;
use days::open::open_day;
use listing::book::BookLines;
use listing::input::read_input;

fn main(rt: HostRuntime) -> anyhow::Result<()> {
    let input = read_input(rt.stdin(), rt.alloc())?;
    let mut book = Book::new();
    match open_day(&input, &mut book) {
        Ok(slip_words) => {
            println!(rt; "{}slip words: {slip_words}", BookLines(&book))?;
        }
        Err(fault) => println!(rt; "{fault}")?,
    }
    Ok(())
}
