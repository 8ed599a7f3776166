ghost use Rattle.books.specs.OneRule.{one_rule, one_rule_lawful, Keeps};
ghost use Rattle.std.proofs.Common.{refl};

use crate::book::Book;
use crate::counts::{ADDITION, Counts, SUCCESSOR, ZERO};
use crate::table::{OwnedRule, RuleTable};
use std::test::Fail;

// A book that holds its rule itself: of one kind, of which two cells vanish.
#[derive(Clone, Copy)]
struct Own {
    rule: OwnedRule,
    ghost kept: { Keeps rule },
}

impl Book for Own {
    ghost meaning = { λ _. one_rule };

    ghost lawful = { λ _. one_rule_lawful };

    ghost same = { λ _ _. refl };

    fn number(&self) -> u8 {
        63
    }

    fn arity(&self, kind: u8) -> Option<u8> {
        (kind == 0).then_some(0)
    }

    fn rule(&self, a: u8, b: u8) -> Option<RuleTable<'_>> {
        if a == 0 && b == 0 {
            Some(self.rule.table())
        } else {
            None
        }
    }
}

fn own_book() -> Option<Own> {
    let rule = OwnedRule::new(&RuleTable {
        left: 0,
        right: 0,
        cells: &[],
        wires: &[],
    })?;
    Some(Own { rule })
}

// A rule that outlives its book.
fn keep<B: Book + Drop>(book: B, a: u8, b: u8) -> Option<OwnedRule> {
    let rule = book.rule(a, b)?;
    OwnedRule::new(&rule)
}

#[test]
fn a_book_holds_its_rule(rt: HostRuntime) -> Result<(), Fail> {
    let book = own_book();
    assert!(rt; book.is_some_and(|book| keep(book, 0, 0).is_some()));
    assert!(rt; book.is_some_and(|book| keep(book, 0, 1).is_none()));
    Ok(())
}

#[test]
fn a_rule_outlives_its_book(rt: HostRuntime) -> Result<(), Fail> {
    let kept = keep(Counts, ADDITION, SUCCESSOR);
    assert!(rt; kept.is_some_and(|rule| Counts.rule(SUCCESSOR, ADDITION) == Some(rule.table())));
    assert!(rt; keep(Counts, ZERO, SUCCESSOR).is_none());
    Ok(())
}
