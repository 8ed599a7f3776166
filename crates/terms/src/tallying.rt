// How uses are tallied.
ghost use Rattle.std.specs.Prelude.{◌≡◌, ℕ, ◌<◌, List, [], Some, IfSome};
ghost use Rattle.std.specs.Option.{option_or};
ghost use Rattle.arrayvec.specs.ArrayVec.{array_vec_len};
ghost use Rattle.terms.specs.Bindings.{variable, listed, nothing};
ghost use Rattle.terms.specs.Letters.{WordAt, capital};
ghost use Rattle.terms.specs.Tallying.{meant, Tallied, Noted};

use crate::looking::find_item;
use crate::tally::Tally;
use arrayvec::ArrayVec;
use refusals::faults::TextFault;

impl Tally {
    // No uses yet.
    pub(crate) fn new() -> Tally
        ensures { (text : List ℕ) → Tallied text [] result }
    {
        Tally {
            used: [false; 8192],
            items: ArrayVec::new(),
            fault: None,
        }
    }

    // Notes a bound name, with the place of its abstraction's name, if it has one.
    pub(crate) fn note_name(&mut self, binder: Option<u16>, at: u32)
        requires { IfSome binder (λ place. place < 8192) }
        ensures { (text : List ℕ) → Noted text (meant binder) at self.old self.new }
    {
        match binder {
            Some(binder) => self.note_variable(binder, at),
            None => self.note_unbound(at),
        }
    }

    // Notes a wrong use, if it is the first.
    fn note_fault(&mut self, fault: TextFault)
        ensures fault { self.new.fault ≡ option_or self.old.fault (Some fault) }
        ensures used { self.new.used ≡ self.old.used }
        ensures items { self.new.items.items ≡ self.old.items.items }
    {
        self.fault = self.fault.or(Some(fault));
    }

    // Notes a bound name that has no abstraction.
    fn note_unbound(&mut self, at: u32)
        ensures { (text : List ℕ) → Noted text nothing at self.old self.new }
    {
        self.note_fault(TextFault::Unbound(at));
    }

    // Notes a use of the variable of the abstraction whose name stands at a place.
    fn note_variable(&mut self, binder: u16, at: u32)
        requires { binder < 8192 }
        ensures { (text : List ℕ) → Noted text (variable binder) at self.old self.new }
    {
        let again = self.used[binder as usize];
        self.used[binder as usize] = true;
        if again {
            self.note_fault(TextFault::UsedTwice(at));
        }
    }

    // Notes an item, which stands at a place of the text.
    pub(crate) fn note_item(&mut self, text: &[u8], item: &[u8], at: u16)
        requires room { array_vec_len self.old.items < 8192 }
        requires here { WordAt text.now at capital item.now }
        ensures { Noted text.now (listed item.now) at self.old self.new }
    {
        let again = find_item(text, &self.items, item);
        self.items.push(at);
        if again {
            self.note_fault(TextFault::UsedTwice(at as u32));
        }
    }
}
