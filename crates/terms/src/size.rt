// The size of a term.

/// How many cells and items a linear term has.
#[derive(Clone, Copy, PartialEq, Eq, Debug)]
pub struct Size {
    pub cells: u16,
    pub items: u16,
}
