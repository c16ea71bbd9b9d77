ghost use Rattle.std.specs.Prelude.{◌≡◌, ◌-◌, ◌<◌, ◌≤◌, ◌↔◌, [], ◌∷◌, ◌++◌, length, IsOk, IsSome, OnOk, OnErr, slice_index_or};
ghost use Rattle.std.specs.List.{IsItemAtMut, ItemMut};
ghost use Rattle.std.specs.Borrow.{sem};

use std::marker::Model;
use std::ops::{DerefSlice, DerefSliceMut};

// A row of at most N items, which stand in the value itself. It is read and changed as a slice of them.
#[derive(Clone, Copy)]
pub struct Row<T, const N: usize> {
    cells: [T; N],
    len: usize,
}

// There is no room for another item.
#[derive(Clone, Copy, PartialEq, Eq, Debug)]
pub struct Full;

// A clause sees a row as its items. What stands in the unused places can be anything.
impl<T, const N: usize> Model for Row<T, N> {
    ghost use Rattle.std.specs.Prelude.{◌≤◌, ◌++◌, take, drop};
    ghost use Rattle.std.proofs.Common.{take-append-drop};
    ghost use Rattle.rows.specs.Listed.{Listed, listed_code};

    ghost Value = { Listed T };

    ghost coded = { listed_code T.code };

    ghost view = { λ r. record { items = take r.len r.cells; spare = drop r.len r.cells; count = r.len } };

    ghost invariant = { λ r. r.len ≤ N };

    ghost inverse = { λ r. record { cells = r.items ++ r.spare; len = r.count } };

    ghost inverse_ok = { λ r h i. record { cells = take-append-drop r.len r.cells i; len = r.len } };
}

impl<T: Copy, const N: usize> Row<T, N> {
    // A row of no items, whose unused places hold the blank.
    pub fn new(blank: T) -> Self
        ensures { result.items ≡ [] }
    {
        Row {
            cells: [blank; N],
            len: 0,
        }
    }

    // Appends an item, if there is room. Otherwise the row stays as it is.
    pub fn push(&mut self, item: T) -> Result<(), Full>
        ensures room { IsOk result ↔ (length self.old.items < N) }
        ensures ok { OnOk result (self.new.items ≡ self.old.items ++ item ∷ []) }
        ensures full { OnErr result (self.new ≡ self.old) }
        ensures fits { length self.new.items ≤ N }
    {
        let Row { cells, len } = self;
        if *len == N {
            return Err(Full);
        }
        cells[*len] = item;
        *len += 1;
        Ok(())
    }
}

impl<T, const N: usize> Row<T, N> {
    ghost use Rattle.rows.specs.Lends.{lends_get, lends_item};

    // How many items the row has.
    #[inline]
    pub fn len(&self) -> usize
        ensures value { result ≡ length self.now.items }
        ensures fits { result ≤ N }
    {
        self.len
    }

    // The item at a place, for changing, if there is one.
    #[inline]
    pub fn get_mut(&mut self, place: usize) -> Option<&mut T>
        ensures* writes_back { sem 𝓛 (lends_get T.row N.row self.entry place result) }
        ensures variant { IsSome result ↔ (place < length self.old.items) }
        ensures item { IsItemAtMut self.old.items place result }
    {
        if place < self.len() {
            Some(self.item_mut(place))
        } else {
            None
        }
    }

    // The last item, for changing, if there is one.
    #[inline]
    pub fn last_mut(&mut self) -> Option<&mut T>
        ensures* writes_back { sem 𝓛 (lends_get T.row N.row self.entry (length self.old.items - 1) result) }
        ensures variant { IsSome result ↔ (0 < length self.old.items) }
        ensures item { ItemMut self.old.items 0 (length self.old.items - 1) result }
    {
        let count = self.len();
        if count > 0 {
            Some(self.item_mut(count - 1))
        } else {
            None
        }
    }

    #[inline]
    fn item_mut(&mut self, place: usize) -> &mut T
        requires has { place < length self.old.items }
        requires fits { place < N }
        ensures* writes_back { sem 𝓛 (lends_item T.row N.row self.entry place result) }
        ensures value { result.now ≡ slice_index_or self.old.items place result.now }
    {
        &mut self.cells[place]
    }
}

impl<T, const N: usize> DerefSlice for Row<T, N> {
    type Elem = T;

    ghost deref_gives = { λ r xs. (xs ≡ r.items) × (length xs ≤ N) };

    #[inline]
    fn deref(&self) -> &[T] {
        &self.cells[..self.len]
    }
}

impl<T, const N: usize> DerefSliceMut for Row<T, N> {
    ghost use Rattle.rows.specs.Lends.{lends_slice};

    #[inline]
    fn deref_mut(&mut self) -> &mut [T]
        ensures* writes_back { sem 𝓛 (lends_slice T.row N.row self.entry result) }
        ensures value { result.now ≡ self.old.items }
        ensures fits { length result.now ≤ N }
    {
        &mut self.cells[..self.len]
    }
}
