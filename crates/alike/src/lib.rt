// Whether two nets are alike: the rows of the one are paired with the rows of the other, piece by piece.
// A net has 1,094 rows: 0 to 1,023 for the places of its cells, 1,030 + e for end e, and 6 between that stay empty.
#![tactic(auto)]

mod row;
mod rows;
mod side;

ghost use Rattle.std.specs.Prelude.{◌≡◌, ◌*◌, ℕ, ◌<◌, ◌≤◌, true, ◌≢◌, ◌↔◌, length};
ghost use Rattle.calculus.specs.Alike.{Alike};
ghost use Rattle.nets.specs.Meaning.{net};
ghost use Rattle.alike.specs.Rows.{rows};
ghost use Rattle.alike.specs.Sides.{graph_of, size, row_at};

use crate::row::{Port, Row};
use crate::side::Side;
use nets::table::Table;

// Rows of one net paired with rows of another: the pair k is of ours.rows[k] and theirs.rows[k].
// That every link of the pairs leads to a pair fails while a piece is gone through, so the clauses say where it holds.
#[derive(Drop)]
struct Pairing<'a> {
    ours: Side<'a>,
    theirs: Side<'a>,
    ghost even: { size theirs ≡ size ours },
    ghost live: { (k : ℕ) → k < size ours → (graph_of ours).kind (row_at ours k) ≢ 0 },
    ghost kinds: { (k : ℕ) → k < size ours → (graph_of theirs).kind (row_at theirs k) ≡ (graph_of ours).kind (row_at ours k) },
}

impl<'a> Pairing<'a> {
    ghost use Rattle.pairing.proofs.Pairs.{Settled, Added, Cut, Meets, Settles, Tried, Placed, Spread, Loose, Fresh};
    ghost use Rattle.alike.specs.Pairings.{pairs, SameNets};

    // No pairs yet.
    fn new(a: &'a Table, b: &'a Table) -> Pairing<'a>
        ensures nets { (graph_of result.ours ≡ rows a.now) × (graph_of result.theirs ≡ rows b.now) }
        ensures empty { (pairs result).count ≡ 0 }
    {
        Pairing {
            ours: Side::new(a),
            theirs: Side::new(b),
        }
    }

    // How many pairs there are.
    fn count(&self) -> usize
        ensures value { result ≡ (pairs self.now).count }
        ensures small { result ≤ 1094 }
    {
        self.ours.rows.len()
    }

    // Puts the pair of x and y behind the others.
    fn push(&mut self, x: Row, y: Row)
        requires loose { Loose (graph_of self.old.ours) (pairs self.old).count (pairs self.old).ours x.number }
        requires fresh { Fresh (graph_of self.old.ours) (graph_of self.old.theirs) (pairs self.old) x.number y.number }
        ensures added { Added (pairs self.old) (pairs self.new) x.number y.number }
        ensures nets { SameNets self.old self.new }
    {
        self.ours.push(x);
        self.theirs.push(y);
    }

    // Keeps the first n pairs.
    fn truncate(&mut self, n: usize)
        requires { n ≤ (pairs self.old).count }
        ensures cut { Cut (pairs self.old) n (pairs self.new) }
        ensures nets { SameNets self.old self.new }
    {
        self.ours.truncate(n);
        self.theirs.truncate(n);
    }

    // Makes x and y a pair, unless one of them is in another or their kinds differ.
    // Here and below a yes says that the pairing goes on; a no has one meaning, and an error type would tell no more.
    fn meet(&mut self, x: Row, y: Row) -> bool
        requires { (graph_of self.old.ours).kind x.number ≢ 0 }
        ensures meets { Meets (graph_of self.old.ours) (graph_of self.old.theirs) (pairs self.old) (pairs self.new) x.number y.number result }
        ensures nets { SameNets self.old self.new }
    {
        match (self.ours.find(x), self.theirs.find(y)) {
            (Some(i), Some(k)) => i == k,
            (Some(_), None) | (None, Some(_)) => false,
            (None, None) => {
                if !self.of_one_kind(x, y) {
                    return false;
                }
                self.push(x, y);
                true
            }
        }
    }

    // Whether what stands in x and in y is of one kind.
    // Out of line, so that the loop over the ports is short enough to be unrolled.
    #[inline(never)]
    fn of_one_kind(&self, x: Row, y: Row) -> bool
        ensures { result ≡ true ↔ ((graph_of self.now.ours).kind x.number ≡ (graph_of self.now.theirs).kind y.number) }
    {
        self.ours.kind(x) == self.theirs.kind(y)
    }

    // Makes pairs of what the ports of the pair h are linked with.
    fn settle(&mut self, h: usize) -> bool
        requires settled { Settled (graph_of self.old.ours) (graph_of self.old.theirs) (3 * h) (pairs self.old) }
        requires below { h < (pairs self.old).count }
        ensures settles { Settles (graph_of self.old.ours) (graph_of self.old.theirs) h (pairs self.old) (pairs self.new) result }
        ensures nets { SameNets self.old self.new }
    {
        let p = self.ours.row(h);
        let q = self.theirs.row(h);
        // each turn may add a pair, and no `all` would tell which
        for number in 0..3 {
            let x = self.ours.link(Port { row: p, number });
            let y = self.theirs.link(Port { row: q, number });
            if x.number != y.number || !self.meet(x.row, y.row) {
                return false;
            }
        }
        true
    }

    // Pairs the piece of p with the piece of q, or leaves the pairs as they are.
    fn attempt(&mut self, p: Row, q: Row) -> bool
        requires settled { Settled (graph_of self.old.ours) (graph_of self.old.theirs) (3 * (pairs self.old).count) (pairs self.old) }
        requires loose { Loose (graph_of self.old.ours) (pairs self.old).count (pairs self.old).ours p.number }
        requires fresh { Fresh (graph_of self.old.ours) (graph_of self.old.theirs) (pairs self.old) p.number q.number }
        ensures tried { Tried (graph_of self.old.ours) (graph_of self.old.theirs) p.number q.number (pairs self.old) (pairs self.new) result }
        ensures nets { SameNets self.old self.new }
    {
        let base = self.count();
        self.push(p, q);
        let mut h = base;
        // a list that grows as it is gone through
        while h < self.count() {
            if !self.settle(h) {
                self.truncate(base);
                return false;
            }
            h += 1;
        }
        true
    }

    // Pairs the piece of p with the first piece that it fits.
    fn place(&mut self, p: Row) -> bool
        requires settled { Settled (graph_of self.old.ours) (graph_of self.old.theirs) (3 * (pairs self.old).count) (pairs self.old) }
        requires loose { Loose (graph_of self.old.ours) (pairs self.old).count (pairs self.old).ours p.number }
        ensures placed { Placed (graph_of self.old.ours) (graph_of self.old.theirs) p.number (pairs self.old) (pairs self.new) result }
        ensures nets { SameNets self.old self.new }
    {
        let wanted = self.ours.kind(p);
        // each try may change the pairs, as in `settle`
        for q in 0..1094 {
            let q = Row { number: q };
            if self.theirs.find(q).is_none() && self.theirs.is_of(q, wanted) && self.attempt(p, q) {
                return true;
            }
        }
        false
    }

    // Pairs every piece of ours.
    fn spread(&mut self) -> bool
        requires { (pairs self.old).count ≡ 0 }
        ensures spread { Spread (graph_of self.old.ours) (graph_of self.old.theirs) (pairs self.new) result }
        ensures nets { SameNets self.old self.new }
    {
        // each piece adds pairs, as in `settle`
        for p in 0..1094 {
            let p = Row { number: p };
            if self.ours.is_loose(p) && !self.place(p) {
                return false;
            }
        }
        true
    }
}

/// Whether the two nets are alike: their loop numbers are equal, and some one-to-one renumbering
/// of the cells keeps every kind, every end and every link, port by port.
pub fn is_alike(a: &Table, b: &Table) -> bool
    ensures sound { result ≡ true → Alike (net a.now) (net b.now) }
    ensures complete { Alike (net a.now) (net b.now) → result ≡ true }
{
    if a.loops() != b.loops() {
        return false;
    }
    let mut pairing = Pairing::new(a, b);
    pairing.spread() && pairing.theirs.is_covered()
}
