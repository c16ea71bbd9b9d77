ghost use Rattle.std.specs.Prelude.{◌≡◌, ℕ, ◌<◌, true, length, Some};
ghost use Rattle.books.specs.Lanes.{has};
ghost use Rattle.std.specs.List.{slice_get};
ghost use Rattle.std.specs.Option.{option_map};
ghost use Rattle.sharing.specs.Cards.{terms};
ghost use Rattle.books.specs.Contents.{contents, lane_of, ranking_of};
ghost use Rattle.books.specs.Laid.{Laid};
ghost use Rattle.books.specs.Totals.{totals_of, shed_totals, lots_ranked};

use crate::book::Book;
use crate::totals::Totals;
use sharing::card::Card;

impl Book {
    // The card of a shed; none if it is not in the book.
    pub fn card(&self, shed: usize) -> Option<Card>
        ensures { option_map terms result ≡ slice_get (contents self.now).sheds shed }
    {
        self.cards.get(shed).copied()
    }

    // How many lots a lane ranks; none if it is not in the book. A lane that ranks 256 lots ranks every lot, so a word
    // that names one more is unknown or twice.
    pub fn ranked(&self, lane: usize) -> Option<usize>
        ensures answer { result ≡ option_map (λ e. length e.ranking) (slice_get (contents self.now).lanes lane) }
        ensures everyone { result ≡ Some 256 → (lot : ℕ) → lot < 256 → has (ranking_of (contents self.now) lane) lot ≡ true }
    {
        let lane = self.lanes.get(lane)?;
        Some(lane.lots().len())
    }

    // The lots that a lane ranks, the best first; none if it is not in the book.
    pub fn ranking(&self, lane: usize) -> &[u8]
        ensures { result.now ≡ ranking_of (contents self.now) lane }
    {
        self.lanes.get(lane).map_or(&[], |lane| lane.lots())
    }

    // The lot at a place of a lane's ranking, the best at 0; none behind the last, and if the lane is not in the book.
    pub fn lot(&self, lane: usize, place: usize) -> Option<u8>
        ensures { result ≡ slice_get (ranking_of (contents self.now) lane) place }
    {
        self.ranking(lane).get(place).copied()
    }

    // Does a lane rank a lot? A lane that is not in the book ranks none.
    pub fn ranks(&self, lane: usize, lot: u8) -> bool
        ensures { result ≡ has (ranking_of (contents self.now) lane) lot }
    {
        self.ranking(lane).contains(&lot)
    }

    // The shed of a lane; none if it is not in the book. The lanes are laid out by the cards of their sheds.
    pub fn shed_of(&self, lane: usize) -> Option<usize>
        ensures answer { result ≡ option_map (λ e. e.shed) (slice_get (contents self.now).lanes lane) }
        ensures laid { Laid (contents self.now) }
    {
        self.lanes.get(lane).map(|lane| lane.shed as usize)
    }

    // The place of a lane on its shed's card; none if it is not in the book.
    pub fn place_of(&self, lane: usize) -> Option<usize>
        ensures { result ≡ option_map (λ e. e.place) (slice_get (contents self.now).lanes lane) }
    {
        self.lanes.get(lane).map(|lane| lane.place as usize)
    }

    // What the book has altogether.
    pub fn totals(&self) -> Totals
        ensures { result ≡ totals_of (contents self.now) }
    {
        Totals {
            sheds: self.cards.len(),
            lanes: self.lanes.len(),
            caps: self.caps(),
            targets: self.targets(),
            capacities: self.capacities(),
            ranked: self.lots_ranked(),
        }
    }

    fn caps(&self) -> u32
        ensures { result ≡ (shed_totals (contents self.now).sheds).0 }
    {
        self.cards.iter().map(|card| card.cap as u32).sum()
    }

    fn targets(&self) -> u32
        ensures { result ≡ (shed_totals (contents self.now).sheds).1 }
    {
        self.cards.iter().map(|card| card.targets()).sum()
    }

    fn capacities(&self) -> u32
        ensures { result ≡ (shed_totals (contents self.now).sheds).2 }
    {
        self.cards.iter().map(|card| card.capacities()).sum()
    }

    fn lots_ranked(&self) -> u32
        ensures { result ≡ lots_ranked (contents self.now).lanes }
    {
        self.lanes.iter().map(|lane| lane.lots().len() as u32).sum()
    }

    // Has the lane a ranking record?
    pub(super) fn has_record(&self, lane: usize) -> bool
        ensures { result ≡ (lane_of (contents self.now) lane).recorded }
    {
        self.lanes.get(lane).is_some_and(|lane| lane.has_record())
    }
}
