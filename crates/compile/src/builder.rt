// A net in the making, on a walk over the text of its term.
use arrayvec::ArrayVec;
use nets::draft::Draft;
use nets::spot::Spot;
use terms::items::Items;

/// An open application: how many abstractions are around it, and its cell.
#[derive(Clone, Copy, Debug, Default, PartialEq, Eq)]
pub struct Open {
    pub(crate) around: u16,
    pub(crate) cell: u16,
}

/// The net of the front of a text: its draft, the items so far, and the spot where the next term goes.
/// The places of the names of the abstractions around, and their cells; the open applications; the outermost first.
#[derive(Drop)]
pub struct Builder<'t> {
    pub(crate) text: &'t [u8],
    pub(crate) at: usize,
    pub(crate) draft: Draft,
    // How many cells there are: the draft does not tell.
    pub(crate) cells: u16,
    pub(crate) items: Items,
    pub(crate) spot: Spot,
    // Places and cells in a list each: `find_scope` looks for a name in a slice of places, and pairs would need a look-up of their own.
    pub(crate) around: ArrayVec<u16, 1024>,
    pub(crate) binders: ArrayVec<u16, 1024>,
    pub(crate) opened: ArrayVec<Open, 1024>,
}
