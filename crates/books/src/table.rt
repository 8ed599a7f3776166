// A rule as the code holds it: a plain table.
ghost use Rattle.std.specs.Prelude.{◌≡◌, ◌≤◌, length};
ghost use Rattle.books.specs.Tables.{joined, wires_of};
ghost use Rattle.std.specs.Option.{option_map};
ghost use Rattle.std.specs.List.{slice_get};

/// A port that a rule speaks of: port j of L is `L(j)`, of R `R(j)`, of the new cell N1 `N(0, j)`, of N2 `N(1, j)`, and so on.
#[derive(Clone, Copy, Debug, PartialEq, Eq)]
pub enum RulePort {
    L(u8),
    R(u8),
    N(u8, u8),
}

/// Two ports that a rule joins.
#[derive(Clone, Copy, Debug, PartialEq, Eq)]
pub struct Wire(pub RulePort, pub RulePort);

/// A cell: its kind and its arity.
#[derive(Clone, Copy, Debug, PartialEq, Eq)]
pub struct Cell {
    pub kind: u8,
    pub arity: u8,
}

/// A rule: the kinds of L and R, the new cells from N1 on, and the wires.
#[derive(Clone, Copy, Debug, PartialEq, Eq)]
pub struct RuleTable<'a> {
    pub left: u8,
    pub right: u8,
    pub cells: &'a [Cell],
    pub wires: &'a [Wire],
}

/// A rule with room of its own for up to four new cells and eight wires: what is kept where nothing lends the slices of a `RuleTable`.
#[derive(Clone, Copy)]
pub struct OwnedRule {
    pub(crate) left: u8,
    pub(crate) right: u8,
    pub(crate) cells: [Cell; 4],
    pub(crate) cell_count: u8,
    pub(crate) wires: [Wire; 8],
    pub(crate) wire_count: u8,
    ghost room: { (length cells ≡ 4) × (length wires ≡ 8) },
    ghost few: { (cell_count ≤ 4) × (wire_count ≤ 8) },
}

impl RuleTable<'_> {
    /// Wire `i` of the rule, counted from 0, or `None` past the last.
    pub fn wire(&self, i: usize) -> Option<Wire>
        ensures { option_map joined result ≡ slice_get (wires_of self.now) i }
    {
        self.wires.get(i).copied()
    }
}
