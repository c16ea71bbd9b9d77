ghost use Rattle.std.specs.Prelude.{◌≡◌, ◌+◌, ◌^◌, ◌<◌, length, is_some, IfErr};
ghost use Rattle.boards.specs.Calls.{entered_lots};
ghost use Rattle.boards.specs.Slips.{list_at};
ghost use Rattle.intake.specs.Slips.{cut, answer_at, enter_all, day_board, board_in, HasRule, EntersSlips, LotForEachSlip};

use books::book::Book;
use days::day::DayWords;
use days::input::MOST_WORDS;
use days::open::{open_book, read_day};
use rounds::round::Round;
use sharing::rule::SharingRule;
use sheets::fault::Fault;
use sheets::reader::Reader;

// What words answer that stand in the input from a place on: a fault is told at its place in the input.
fn answer_at(answer: Result<u8, Fault>, place: usize) -> Result<u8, Fault>
    requires { IfErr answer (λ fault. place + fault.place < 2 ^ 64) }
    ensures { result ≡ answer_at place answer }
{
    answer.map_err(|fault| Fault::new(fault.refusal(), place + fault.place()))
}

// Enters the slips of a day, one after the other, into a round, until one is refused. A refusal is told at its place in
// the input, where the slips stand behind the number of book words and the book.
fn enter_slips<R: SharingRule + Drop>(mut round: Round<R>, day: DayWords) -> Result<Round<R>, Fault>
    ensures board { board_in result ≡ enter_all (1 + length day.entry.book.now) round.board (cut day.entry.slips.now) }
    ensures rule { HasRule round.rule result }
{
    let first = 1 + day.book.len();
    let mut reader = Reader::new(day.slips);
    while let Some(slip) = reader.next_slip() {
        answer_at(round.enter(slip.words), first + slip.place)?;
    }
    Ok(round)
}

// Opens the book sheet of a day and enters its slips, one after the other, into a round under a rule. The first refusal
// has its place in the whole input.
pub fn enter_day<R: SharingRule + Drop>(bytes: &[u8], rule: R) -> Result<Round<R>, Fault>
    ensures board { board_in result ≡ day_board bytes.now }
    ensures rule { HasRule rule result }
    ensures slips_entered { EntersSlips (R.SharingRule.meaning rule) bytes.now (board_in result) }
    ensures each_slip_a_lot { LotForEachSlip bytes.now (board_in result) }
{
    let mut words = [0u32; MOST_WORDS];
    let day = read_day(bytes, &mut words)?;
    let mut book = Book::new();
    open_book(day.book, &mut book)?;
    enter_slips(Round::begin(&book, rule), day)
}

// Has a slip entered the lot?
fn is_entered<R: SharingRule>(round: &Round<R>, lot: usize) -> bool
    ensures { result ≡ is_some (list_at round.now.board.lists lot) }
{
    round.list(lot).is_some()
}

// How many slips were entered into a round: each has entered a lot of its own.
pub fn slip_count<R: SharingRule>(round: &Round<R>) -> usize
    ensures { result ≡ entered_lots round.now.board.lists }
{
    (0..256).filter(|lot| is_entered(round, *lot)).count()
}
