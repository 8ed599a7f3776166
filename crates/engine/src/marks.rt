// Which cells of a run are marked as out.
ghost use Rattle.std.specs.Prelude.{◌≡◌, ℕ, true, false, length, Decides, slice_set};

/// A mark for each place.
// an array of fixed room: no call of a run allocates
#[derive(Drop)]
pub(crate) struct Marks {
    cells: [bool; 1024],
    ghost wide: { length cells ≡ 1024 },
}

impl Marks {
    ghost use Rattle.engine.specs.States.{has_mark};

    /// No cell is marked.
    pub(crate) fn none() -> Marks
        ensures { (k : ℕ) → has_mark result k ≡ false }
    {
        Marks {
            cells: [false; 1024],
        }
    }

    /// Whether the cell in a place is marked.
    pub(crate) fn has(&self, place: u16) -> bool
        ensures { result ≡ has_mark self.now place }
    {
        place < 1024 && self.cells[place as usize]
    }

    /// Whether any cell is.
    pub(crate) fn any(&self) -> bool
        ensures { Decides result ((k : ℕ) × (has_mark self.now k ≡ true)) }
    {
        self.cells.contains(&true)
    }

    /// Sets the marks of two places; there is none past the last place.
    pub(crate) fn set(&mut self, left: u16, right: u16, out: bool)
        ensures { self.new.cells ≡ slice_set (slice_set self.old.cells left out) right out }
    {
        self.set_one(left, out);
        self.set_one(right, out);
    }

    // Sets the mark of a place, if there is such a place.
    fn set_one(&mut self, place: u16, out: bool)
        ensures { self.new.cells ≡ slice_set self.old.cells place out }
    {
        if place < 1024 {
            self.cells[place as usize] = out;
        }
    }
}
