ghost use Rattle.std.specs.Prelude.{◌≡◌, ◌≤◌, ◌<◌, Some};

use crate::table::Table;
use sharing::rule::SharingRule;

// A lot, and the lane that it asks.
#[derive(Clone, Copy)]
pub(super) struct Application {
    pub(super) lot: u8,
    pub(super) lane: u8,
}

// The shed of the lane that is asked, and what a rule has chosen for it.
#[derive(Clone, Copy)]
pub(super) struct AskedShed {
    pub(super) asked: Application,
    // the shed's first lane
    pub(super) first: usize,
    // how many lanes it has
    pub(super) lanes: usize,
    // how many lots each lane is supplied with, and how many of them it keeps, by its place on the card
    pub(super) supply: [u16; 8],
    pub(super) keep: [u16; 8],
    ghost first_known: { first ≤ 32 },
    ghost few_lanes: { lanes ≤ 8 },
}

impl Table {
    ghost use Rattle.books.specs.Contents.{contents, ranking_of};
    ghost use Rattle.boards.specs.Boards.{line_of, wishes};
    ghost use Rattle.boards.specs.Searches.{next_wish, beyond, beyond_at, first_of, goes};
    ghost use Rattle.rounds.specs.Tables.{board};
    ghost use Rattle.rounds.specs.Claims.{claiming};

    // Does the lane hold the lot, or does the lot ask there?
    #[tactic(auto, unfolding(crate::specs::Claims::claiming))]
    fn claims(&self, asked: Application, lane: usize, lot: u8) -> bool
        ensures { result ≡ claiming self.now asked lane lot }
    {
        lane == asked.lane as usize && lot == asked.lot
            || self.lots.lines.of(lot as usize).is_held_at(lane)
    }

    // Along a lane's ranking, the first lot that claims the lane behind those that are kept.
    fn beyond(&self, asked: Application, lane: usize, keep: u16) -> Option<u8>
        ensures { result ≡ beyond keep (claiming self.now asked lane) (ranking_of (contents self.now.book) lane) }
    {
        self.book
            .ranking(lane)
            .iter()
            .copied()
            .filter(|lot| self.claims(asked, lane, *lot))
            .nth(keep as usize)
    }

    // The same at a place of the card, where the lane keeps fewer than it is supplied with.
    fn beyond_at(&self, shed: &AskedShed, place: usize) -> Option<u8>
        requires { place < 8 }
        ensures { result ≡ beyond_at (contents self.now.book) (claiming self.now shed.now.asked) shed.now.first shed.now.supply shed.now.keep place }
    {
        let keep = shed.keep[place];
        let drops = keep < shed.supply[place];
        if drops {
            self.beyond(shed.asked, shed.first + place, keep)
        } else {
            None
        }
    }

    // The first lot of the shed that claims a lane behind those that are kept.
    fn beyond_any(&self, shed: &AskedShed) -> Option<u8>
        ensures { result ≡ first_of (beyond_at (contents self.now.book) (claiming self.now shed.now.asked) shed.now.first shed.now.supply shed.now.keep) 0 shed.now.lanes }
    {
        (0..shed.lanes).find_map(|place| self.beyond_at(shed, place))
    }

    // Who has to go if the lot asks the lane: the lot itself where the lane does not rank it, and none where all can stay.
    pub(super) fn leaver<R: SharingRule>(&self, rule: &R, asked: Application) -> Option<u8>
        requires { next_wish (line_of (board self.now) asked.lot) (wishes (board self.now) asked.lot) ≡ Some asked.lane }
        ensures { result ≡ goes (R.SharingRule.meaning rule.now) (board self.now) asked.lot asked.lane }
    {
        let lane = asked.lane as usize;
        if !self.book.ranks(lane, asked.lot) {
            return Some(asked.lot);
        }
        let shed = self.book.shed_of(lane)?;
        let place = self.book.place_of(lane)?;
        let card = self.book.card(shed)?;
        let mut supply = self.lots.lines.filling(&self.book, shed);
        supply[place] += 1;
        let keep = rule.choice(&card, &supply);
        self.beyond_any(&AskedShed {
            asked,
            first: lane - place,
            lanes: card.lanes.len(),
            supply,
            keep,
        })
    }
}
