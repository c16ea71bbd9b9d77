ghost use Rattle.std.specs.Prelude.{◌≤◌, length};
ghost use Rattle.books.specs.Entries.{contents_of};
ghost use Rattle.books.specs.Laid.{LanesOrdered};

use crate::lane::Lane;
use rows::row::Row;
use sharing::card::Card;

pub mod counts;
pub mod edits;
pub mod looks;
pub mod open;
mod opening;

// The sheds with their cards, and the lanes with their rankings.
#[derive(Clone, Copy)]
pub struct Book {
    cards: Row<Card, 8>,
    lanes: Row<Lane, 32>,
    ghost few_sheds: { length cards.items ≤ 8 },
    ghost few_lanes: { length lanes.items ≤ 32 },
    ghost ordered: { LanesOrdered (contents_of cards.items lanes.items) },
}
