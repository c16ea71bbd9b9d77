ghost use Rattle.std.specs.Prelude.{◌≡◌, length};
ghost use Rattle.books.specs.Contents.{contents};

use crate::book::Book;

impl Book {
    pub fn shed_count(&self) -> usize
        ensures { result ≡ length (contents self.now).sheds }
    {
        self.cards.len()
    }

    pub fn lane_count(&self) -> usize
        ensures { result ≡ length (contents self.now).lanes }
    {
        self.lanes.len()
    }
}
