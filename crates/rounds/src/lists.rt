ghost use Rattle.std.specs.Prelude.{◌≡◌, ℕ, List, replicate, Some, None, Option, slice_set};
ghost use Rattle.std.specs.Option.{option_map};
ghost use Rattle.boards.specs.Lines.{wishes_of};
ghost use Rattle.boards.specs.Slips.{list_of, lists_of, list_at};

use boards::wishes::Wishes;
use std::marker::Model;

// The list of each lot; none where no slip has come.
#[derive(Drop)]
pub struct Lists {
    lists: [Option<Wishes>; 256],
}

// Clauses see the lanes on each list, in the order of the lots.
impl Model for Lists {
    ghost Value = { List (Option (List ℕ)) };

    ghost view = { λ s. lists_of s.lists };
}

impl Lists {
    // No slip has come.
    pub(crate) fn new() -> Lists
        ensures { result ≡ replicate 256 None }
    {
        Lists { lists: [None; 256] }
    }

    // The list of a lot; none where no slip has come, and above 255.
    pub(crate) fn of(&self, lot: usize) -> Option<Wishes>
        ensures { option_map list_of result ≡ list_at self.now lot }
    {
        self.lists.get(lot).copied().flatten()
    }

    // The same; without a wish where there is none.
    pub(crate) fn wishes(&self, lot: usize) -> Wishes
        ensures { list_of result ≡ wishes_of (list_at self.now lot) }
    {
        self.of(lot).unwrap_or(Wishes::new())
    }

    // Gives a lot its list.
    pub(crate) fn set(&mut self, lot: u8, list: Wishes)
        ensures { self.new ≡ slice_set self.old lot (Some (list_of list)) }
    {
        self.lists[lot as usize] = Some(list);
    }
}
