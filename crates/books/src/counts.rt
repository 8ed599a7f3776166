// Counting with zero, successor and addition.
ghost use Rattle.calculus.specs.Counts.{counts};
ghost use Rattle.calculus.proofs.Lawful.{counts_lawful};
ghost use Rattle.std.proofs.Common.{refl};

use crate::book::Book;
use crate::shelf::look;
use crate::table::RulePort::{L, N, R};
use crate::table::{Cell, RuleTable, Wire};

// A kind is a number, as a cell and a net file have it: a table holds the cells of any book.

/// The kind Z, the number zero.
pub const ZERO: u8 = 0;

/// The kind S, the successor of the number at its port 1.
pub const SUCCESSOR: u8 = 1;

/// The kind A, a sum: its principal port is at the first number, port 1 at the second, port 2 at the result.
pub const ADDITION: u8 = 2;

/// The arities of Z, S and A.
static ARITIES: [u8; 3] = [0, 1, 2];

/// A new S.
const NEW_SUCCESSOR: Cell = Cell {
    kind: SUCCESSOR,
    arity: 1,
};

/// A new A.
const NEW_ADDITION: Cell = Cell {
    kind: ADDITION,
    arity: 2,
};

//               /-- R1
//      Z-------A          ==>   R1 ------- R2
//               \-- R2
const ZERO_ADDITION: RuleTable = RuleTable {
    left: ZERO,
    right: ADDITION,
    cells: &[],
    wires: &[Wire(R(1), R(2))],
};

//               /-- R1          L1 --0 N2 1-- R1
// L1 --S-------A          ==>          A  2--1 N1 0-- R2
//               \-- R2                         S
const SUCCESSOR_ADDITION: RuleTable = RuleTable {
    left: SUCCESSOR,
    right: ADDITION,
    cells: &[NEW_SUCCESSOR, NEW_ADDITION],
    wires: &[
        Wire(N(0, 0), R(2)),
        Wire(N(0, 1), N(1, 2)),
        Wire(N(1, 0), L(1)),
        Wire(N(1, 1), R(1)),
    ],
};

/// The rule for two kinds: a row and a column for each of Z, S and A.
static RULES: [&[Option<&RuleTable>]; 3] = [
    &[None, None, Some(&ZERO_ADDITION)],
    &[None, None, Some(&SUCCESSOR_ADDITION)],
    &[Some(&ZERO_ADDITION), Some(&SUCCESSOR_ADDITION), None],
];

/// The book of counting, book 1.
#[derive(Clone, Copy)]
pub struct Counts;

impl Book for Counts {
    ghost meaning = { λ _. counts };

    ghost lawful = { λ _. counts_lawful };

    ghost same = { λ _ _. refl };

    fn number(&self) -> u8 {
        1
    }

    fn arity(&self, kind: u8) -> Option<u8> {
        ARITIES.get(kind as usize).copied()
    }

    fn rule(&self, a: u8, b: u8) -> Option<RuleTable<'_>> {
        look(&RULES, a, b)
    }
}
