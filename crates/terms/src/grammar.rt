// Which texts are terms, linear or not.
ghost use Rattle.terms.specs.Texts.{Checked, OneAnswer};

use crate::scanning::find_fault;
use refusals::faults::TextFault;

/// Looks at the length of a text and at its grammar: it answers that the text is that of a term, linear or not, or the fault that is due.
pub fn check_grammar(text: &[u8]) -> Result<(), TextFault>
    ensures answer { Checked text.now result }
    ensures one { OneAnswer text.now }
{
    if text.len() > 8192 {
        return Err(TextFault::TooLong);
    }
    match find_fault(text) {
        Some(at) => Err(TextFault::Grammar(at)),
        None => Ok(()),
    }
}
