// A survey of a whole text: every check, and no allocation.
ghost use Rattle.terms.specs.Texts.{Surveyed, OneAnswer};
ghost use Rattle.terms.specs.Unused.{UnusedFound};

use crate::grammar::check_grammar;
use crate::size::Size;
use crate::text_walk::TextWalk;
use crate::walker::Walker;
use refusals::faults::TextFault;

/// Looks at every byte of a text: the length, the grammar, the uses in their order, the abstractions in their order, and then the limits.
/// It answers the size of a linear term within the limits, or else the one fault that is due.
pub fn survey_text(text: &[u8]) -> Result<Size, TextFault>
    ensures answer { Surveyed text.now result }
    ensures one { OneAnswer text.now }
{
    check_grammar(text)?;
    let mut walker = Walker::new(text);
    walker.walk();
    if let Some(fault) = walker.tally.fault {
        return Err(fault);
    }
    if let Some(at) = find_unused(&walker) {
        return Err(TextFault::Unused(at));
    }
    let items = walker.tally.items.len();
    if items > 63 || walker.cells > 1024 {
        return Err(TextFault::TooLarge);
    }
    Ok(Size {
        cells: walker.cells,
        items: items as u16,
    })
}

// The first place of a name of an abstraction whose variable is never used.
fn find_unused(walker: &Walker) -> Option<u32>
    ensures { UnusedFound walker.now.binders walker.now.tally.used result }
{
    walker
        .binders
        .iter()
        .zip(&walker.tally.used)
        .position(|(binder, used)| *binder && !*used)
        .map(|at| at as u32)
}
