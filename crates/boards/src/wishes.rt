ghost use Rattle.std.specs.Prelude.{◌≤◌, length};

use rows::row::Row;

pub mod list;
pub mod read;

// A list has room for so many wishes.
pub(crate) const MOST_WISHES: usize = 12;

// A lot's list: the lanes that it wants, the most wanted first.
#[derive(Clone, Copy)]
pub struct Wishes {
    lanes: Row<u8, MOST_WISHES>,
    ghost few: { length lanes.items ≤ 12 },
}
