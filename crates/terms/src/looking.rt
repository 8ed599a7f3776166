// Looking up names and items.
ghost use Rattle.std.specs.Prelude.{◌<◌, length, IfSome, Decides};
ghost use Rattle.std.specs.List.{Any};
ghost use Rattle.terms.specs.Letters.{ReadAt, capital};
ghost use Rattle.terms.specs.Bindings.{Around};
ghost use Rattle.terms.specs.Scopes.{Surrounding, Found, Latest};

use crate::letters::word_at;

/// The innermost of some abstractions that has a name, counted from the outermost on; `around` has the places of their names in the text, the outermost first.
pub fn find_scope(text: &[u8], around: &[u16], name: &[u8]) -> Option<usize>
    ensures within { IfSome result (λ i. i < length around.now) }
    ensures latest { Latest text.now around.now name.now result }
    ensures found { (es : Around) → Surrounding text.now around.now (length around.now) es → Found name.now (length around.now) es result }
{
    around
        .iter()
        .rposition(|place| is_read(text, *place, b'a', name))
}

/// Whether an item is one of those that stand at some places of the text.
pub(crate) fn find_item(text: &[u8], places: &[u16], item: &[u8]) -> bool
    ensures { Decides result (Any (λ place. ReadAt text.now place capital item.now) places.now) }
{
    places.iter().any(|place| is_read(text, *place, b'A', item))
}

// Whether it is this word that is read at a place of the text.
fn is_read(text: &[u8], place: u16, first: u8, word: &[u8]) -> bool
    ensures { Decides result (ReadAt text.now place first word.now) }
{
    word_at(text, place as usize, first) == word
}
