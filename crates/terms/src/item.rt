// An item.
ghost use Rattle.std.specs.Prelude.{◌≡◌, ℕ, ◌<◌, ◌≤◌, true, length, slice_index};
ghost use Rattle.terms.specs.Letters.{letter, capital};

/// An item: one to eight letters A to Z, in the first bytes of eight, of which the others are 0.
#[derive(Clone, Copy, PartialEq, Eq)]
pub struct Item {
    pub(crate) letters: [u8; 8],
    pub(crate) len: u8,
    ghost wide: { length letters ≡ 8 },
    ghost some: { 1 ≤ len },
    ghost few: { len ≤ 8 },
    ghost formed: { (k : ℕ) → k < len → letter capital (slice_index letters k) ≡ true },
    // so that two items that are spelled alike are the same bytes
    ghost blank: { (k : ℕ) → len ≤ k → k < 8 → slice_index letters k ≡ 0 },
}
