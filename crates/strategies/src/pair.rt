/// An active pair that waits: the places of its cells, L first, and the number of new cells of its rule.
#[derive(Clone, Copy, Debug, Default, PartialEq, Eq)]
pub struct Pair {
    pub left: u16,
    pub right: u16,
    pub cells: u8,
}
