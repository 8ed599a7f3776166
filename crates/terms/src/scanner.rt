// The state of reading a text byte by byte.
ghost use Rattle.std.specs.Prelude.{◌≤◌, length};

use arrayvec::ArrayVec;

/// The kind of a word that is being read: the name of an abstraction, a bound name or an item.
#[derive(Clone, Copy, PartialEq, Eq, Debug)]
pub enum Kind {
    Binder,
    Name,
    Item,
}

// Most bytes are letters, and the last variant is the one that LLVM tests first.
/// How far the reading has come: a term is due, a term was read, or so many letters of a word are read.
#[derive(Clone, Copy, PartialEq, Eq, Debug)]
pub enum Mode {
    Term,
    Done,
    Spelling(Kind, u8),
}

/// A reader that has come to some byte of a text: for each open application, the outermost first, whether its function was read.
#[derive(Drop)]
pub struct Scanner {
    pub(crate) arguments: ArrayVec<bool, 8192>,
    ghost inside: { length arguments.items ≤ 8192 },
}
