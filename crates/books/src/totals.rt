// What a book has altogether: its sheds and lanes, and the sums of the caps, the targets, the capacities and the lots
// that its lanes rank.
#[derive(Clone, Copy, PartialEq, Eq, Debug)]
pub struct Totals {
    pub sheds: usize,
    pub lanes: usize,
    pub caps: u32,
    pub targets: u32,
    pub capacities: u32,
    pub ranked: u32,
}
