// What a rule book answers.
ghost use Rattle.std.specs.Prelude.{◌≡◌};
ghost use Rattle.calculus.specs.Books.{RuleBook, Laws};
ghost use Rattle.books.specs.Answers.{Answers};

use crate::table::RuleTable;

/// A rule book: its number, its kinds with their arities, and its rules. A question changes nothing.
pub trait Book {
    // The book as data.
    ghost meaning: { Self → RuleBook };

    /// The book's number.
    fn number(&self) -> u8
        ensures { result ≡ (meaning self.now).number };

    /// The arity of a kind, or `None` where the book lacks the kind.
    fn arity(&self, kind: u8) -> Option<u8>
        ensures { result ≡ (meaning self.now).arity kind };

    /// The rule for two kinds, in either order, or `None` where the book has none.
    fn rule(&self, a: u8, b: u8) -> Option<RuleTable<'_>>
        ensures { Answers (meaning self.now) a b result };

    // It keeps the laws of a rule book.
    ghost lawful: { (b : Self) → Laws (meaning b) };

    // All values of one book's type mean the same book.
    ghost same: { (a b : Self) → meaning a ≡ meaning b };
}
