// A walk over the text of a term, to find what its names mean.
ghost use Rattle.std.specs.Prelude.{◌≡◌, ◌≤◌, length};

use crate::tally::Tally;
use arrayvec::ArrayVec;

/// A walk that has come to a place of a text: the places of the names of the abstractions around, and for each open application how many are around it,
/// the outermost first; where names of abstractions stand; how many cells there are; and what the uses come to.
#[derive(Drop)]
pub struct Walker<'t> {
    pub(crate) text: &'t [u8],
    pub(crate) at: usize,
    pub(crate) around: ArrayVec<u16, 8192>,
    pub(crate) saved: ArrayVec<u16, 8192>,
    // a set of places in fixed memory: a flag for each byte of the text
    pub(crate) binders: [bool; 8192],
    pub(crate) cells: u16,
    pub(crate) tally: Tally,
    ghost short: { length text.now ≤ 8192 },
    ghost long: { length binders ≡ 8192 },
}
