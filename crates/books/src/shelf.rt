// Where a book keeps its rules. Each book is a type, as all values of a type mean one book; what books share is this look-up.
ghost use Rattle.books.specs.Shelves.{Looked};

use crate::table::RuleTable;

/// The rule in row `a` and column `b`, or `None` where there is no such row or column, or no rule stands there.
pub(crate) fn look<'a>(
    rules: &'a [&'a [Option<&'a RuleTable<'a>>]],
    a: u8,
    b: u8,
) -> Option<RuleTable<'a>>
    ensures { Looked rules.now a b result }
{
    let row = rules.get(a as usize)?;
    row.get(b as usize)?.copied()
}
