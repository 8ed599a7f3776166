// What the uses of a text's front come to.
ghost use Rattle.std.specs.Prelude.{◌≡◌, length};

use arrayvec::ArrayVec;
use refusals::faults::TextFault;

/// What the uses so far come to: which variables are used, by the places of their abstractions' names; where the items stand;
/// and the first use that is wrong.
#[derive(Drop)]
pub struct Tally {
    // a set of places in fixed memory: a flag for each byte of the text
    pub(crate) used: [bool; 8192],
    pub(crate) items: ArrayVec<u16, 8192>,
    pub(crate) fault: Option<TextFault>,
    ghost wide: { length used ≡ 8192 },
}
