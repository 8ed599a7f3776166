// The interaction combinators γ, δ and ε.
ghost use Rattle.calculus.specs.Combinators.{combinators};
ghost use Rattle.calculus.proofs.Lawful.{combinators_lawful};
ghost use Rattle.std.proofs.Common.{refl};

use crate::book::Book;
use crate::shelf::look;
use crate::table::RulePort::{L, N, R};
use crate::table::{Cell, RuleTable, Wire};

// A kind is a number, as a cell and a net file have it: a table holds the cells of any book.

/// The kind γ, which has two auxiliary ports.
pub const GAMMA: u8 = 0;

/// The kind δ, which has two auxiliary ports.
pub const DELTA: u8 = 1;

/// The kind ε, which has none.
pub const EPSILON: u8 = 2;

/// The arities of γ, δ and ε.
static ARITIES: [u8; 3] = [2, 2, 0];

/// A new γ.
const NEW_GAMMA: Cell = Cell {
    kind: GAMMA,
    arity: 2,
};

/// A new δ.
const NEW_DELTA: Cell = Cell {
    kind: DELTA,
    arity: 2,
};

/// A new ε.
const NEW_EPSILON: Cell = Cell {
    kind: EPSILON,
    arity: 0,
};

// L1 --\         /-- R1         L1 --\ /-- R1
//       γ-------γ         ==>         X
// L2 --/         \-- R2         L2 --/ \-- R2
const GAMMA_GAMMA: RuleTable = RuleTable {
    left: GAMMA,
    right: GAMMA,
    cells: &[],
    wires: &[Wire(L(1), R(2)), Wire(L(2), R(1))],
};

// L1 --\         /-- R1         L1 ------- R1
//       δ-------δ         ==>
// L2 --/         \-- R2         L2 ------- R2
const DELTA_DELTA: RuleTable = RuleTable {
    left: DELTA,
    right: DELTA,
    cells: &[],
    wires: &[Wire(L(1), R(1)), Wire(L(2), R(2))],
};

//       ε-------ε         ==>   nothing
const EPSILON_EPSILON: RuleTable = RuleTable {
    left: EPSILON,
    right: EPSILON,
    cells: &[],
    wires: &[],
};

// L1 --\         /-- R1         L1 --0 N1 1-------1 N3 0-- R1
//       γ-------δ         ==>          δ  2--\ /--2 γ
// L2 --/         \-- R2                       X
//                               L2 --0 N2 1--/ \--1 N4 0-- R2
//                                      δ  2-------2 γ
const GAMMA_DELTA: RuleTable = RuleTable {
    left: GAMMA,
    right: DELTA,
    cells: &[NEW_DELTA, NEW_DELTA, NEW_GAMMA, NEW_GAMMA],
    wires: &[
        Wire(N(0, 0), L(1)),
        Wire(N(1, 0), L(2)),
        Wire(N(2, 0), R(1)),
        Wire(N(3, 0), R(2)),
        Wire(N(0, 1), N(2, 1)),
        Wire(N(0, 2), N(3, 1)),
        Wire(N(1, 1), N(2, 2)),
        Wire(N(1, 2), N(3, 2)),
    ],
};

/// The wires of γε and δε: an ε of its own for each of L1 and L2.
const ERASING: &[Wire] = &[Wire(N(0, 0), L(1)), Wire(N(1, 0), L(2))];

// L1 --\                        L1 --0 N1
//       γ-------ε         ==>          ε
// L2 --/                        L2 --0 N2
//                                      ε
const GAMMA_EPSILON: RuleTable = RuleTable {
    left: GAMMA,
    right: EPSILON,
    cells: &[NEW_EPSILON, NEW_EPSILON],
    wires: ERASING,
};

// L1 --\                        L1 --0 N1
//       δ-------ε         ==>          ε
// L2 --/                        L2 --0 N2
//                                      ε
const DELTA_EPSILON: RuleTable = RuleTable {
    left: DELTA,
    right: EPSILON,
    cells: &[NEW_EPSILON, NEW_EPSILON],
    wires: ERASING,
};

/// The rule for two kinds: a row and a column for each of γ, δ and ε.
static RULES: [&[Option<&RuleTable>]; 3] = [
    &[Some(&GAMMA_GAMMA), Some(&GAMMA_DELTA), Some(&GAMMA_EPSILON)],
    &[Some(&GAMMA_DELTA), Some(&DELTA_DELTA), Some(&DELTA_EPSILON)],
    &[
        Some(&GAMMA_EPSILON),
        Some(&DELTA_EPSILON),
        Some(&EPSILON_EPSILON),
    ],
];

/// The book of the interaction combinators, book 0.
#[derive(Clone, Copy)]
pub struct Combinators;

impl Book for Combinators {
    ghost meaning = { λ _. combinators };

    ghost lawful = { λ _. combinators_lawful };

    ghost same = { λ _ _. refl };

    fn number(&self) -> u8 {
        0
    }

    fn arity(&self, kind: u8) -> Option<u8> {
        ARITIES.get(kind as usize).copied()
    }

    fn rule(&self, a: u8, b: u8) -> Option<RuleTable<'_>> {
        look(&RULES, a, b)
    }
}
