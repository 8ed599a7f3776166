// A list of items.
ghost use Rattle.std.specs.Prelude.{◌≤◌, vec_len, vec_capacity};
ghost use Rattle.terms.specs.Spelling.{Apart};

use crate::item::Item;

/// A list of at most 63 items, no two of them the same; its memory is taken once, when it is made.
#[derive(Drop)]
pub struct Items {
    pub(crate) items: Vec<Item>,
    ghost room: { 63 ≤ vec_capacity items },
    ghost short: { vec_len items ≤ 63 },
    ghost apart: { Apart items.items },
}
