ghost use Rattle.std.specs.Prelude.{◌≡◌, ℕ, ◌-◌, ◌*◌, ◌/◌, ◌%◌, ◌^◌, ◌≤◌, ◌==◌, Option, Result};
ghost use Rattle.sheets.specs.declared.fault.Refusal.{Refusal};
ghost use Rattle.sheets.specs.Words.{kind, low, lone, paired, converted, read_word, book_word, slip_word};

use crate::fault::{Fault, Refusal};

// A word of a book sheet.
#[derive(Clone, Copy, PartialEq, Eq, Debug)]
pub enum BookWord {
    Shed { cap: u16 },
    Lane { target: u16, capacity: u16 },
    Rank { lane: u16 },
    Next { lot: u16 },
}

// A word of a slip.
#[derive(Clone, Copy, PartialEq, Eq, Debug)]
pub enum SlipWord {
    Lot { lot: u16 },
    Wish { lane: u16 },
}

// The words of one kind of input, of a book sheet or of a slip. Any other word is strange there.
pub trait Word: TryFrom<u32, Error = Refusal> {
    // What a word says; nothing where it is strange.
    ghost meaning: { ℕ → Option Self };

    // The word at a place of the input.
    final fn read(word: u32, place: usize) -> Result<Self, Fault>
        ensures { result ≡ read_word meaning word place }
    {
        Self::try_from(word).map_err(|refusal| Fault::new(refusal, place))
    }

    // The conversion goes by this meaning.
    ghost converts: { (word : ℕ) (read : Result Self Refusal) → Self.try_from_gives word read → read ≡ converted meaning word };
}

fn kind_of(word: u32) -> u32
    ensures { result ≡ kind word }
{
    word >> 28
}

// Is the word a LOT word by its kind?
pub(crate) fn begins_slip(word: u32) -> bool
    ensures { result ≡ (kind word == 5) }
{
    kind_of(word) == 5
}

// The field in the lowest bits.
fn field(bits: u32) -> u16
    ensures { result ≡ low bits }
{
    (bits & 0xfff) as u16
}

// Is nothing set between the kind and so many fields?
fn has_fields(word: u32, count: u32) -> bool
    requires { count ≤ 2 }
    ensures one { count ≡ 1 → result ≡ lone word }
    ensures two { count ≡ 2 → result ≡ paired word }
{
    (word >> (12 * count)) % (1 << (28 - 12 * count)) == 0
}

impl TryFrom<u32> for BookWord {
    type Error = Refusal;

    ghost try_from_gives = { λ word read. read ≡ converted book_word word };

    fn try_from(word: u32) -> Result<BookWord, Refusal> {
        match kind_of(word) {
            1 if has_fields(word, 1) => Ok(BookWord::Shed { cap: field(word) }),
            2 if has_fields(word, 2) => Ok(BookWord::Lane {
                target: field(word >> 12),
                capacity: field(word),
            }),
            3 if has_fields(word, 1) => Ok(BookWord::Rank { lane: field(word) }),
            4 if has_fields(word, 1) => Ok(BookWord::Next { lot: field(word) }),
            _ => Err(Refusal::Strange),
        }
    }
}

impl Word for BookWord {
    ghost meaning = { book_word };

    ghost converts = { λ word read gives. gives };
}

impl TryFrom<u32> for SlipWord {
    type Error = Refusal;

    ghost try_from_gives = { λ word read. read ≡ converted slip_word word };

    fn try_from(word: u32) -> Result<SlipWord, Refusal> {
        match kind_of(word) {
            5 if has_fields(word, 1) => Ok(SlipWord::Lot { lot: field(word) }),
            6 if has_fields(word, 1) => Ok(SlipWord::Wish { lane: field(word) }),
            _ => Err(Refusal::Strange),
        }
    }
}

impl Word for SlipWord {
    ghost meaning = { slip_word };

    ghost converts = { λ word read gives. gives };
}
