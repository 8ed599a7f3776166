// How a walk goes over the text of a term.
ghost use Rattle.std.specs.Prelude.{◌≤◌, length};
ghost use Rattle.terms.specs.Walking.{Reading, Begins};
ghost use Rattle.terms.specs.Named.{Grammatical};

use crate::letters::word_at;
use crate::looking::find_scope;
use crate::tally::Tally;
use crate::text_walk::TextWalk;
use crate::walker::Walker;
use arrayvec::ArrayVec;

impl<'t> Walker<'t> {
    /// A walk before the first byte of the text of a term.
    pub(crate) fn new(text: &'t [u8]) -> Walker<'t>
        requires short { length text.now ≤ 8192 }
        requires grammatical { Grammatical text.now }
        ensures { Begins text.now result }
    {
        Walker {
            text,
            at: 0,
            around: ArrayVec::new(),
            saved: ArrayVec::new(),
            binders: [false; 8192],
            cells: 0,
            tally: Tally::new(),
        }
    }
}

impl<'t> TextWalk for Walker<'t> {
    ghost text = { λ w. w.text.now };

    ghost at = { λ w. w.at };

    ghost Reading = { Reading };

    ghost stands = { λ w z r. r.3.stands };

    fn byte(&self) -> Option<u8> {
        self.text.get(self.at).copied()
    }

    fn enter_body(&mut self) {
        let name = word_at(self.text, self.at + 1, b'a');
        self.around.push(self.at as u16 + 1);
        self.binders[self.at + 1] = true;
        self.cells += 1;
        self.at += name.len() + 2;
    }

    fn enter_function(&mut self) {
        self.saved.push(self.around.len() as u16);
        self.cells += 1;
        self.at += 1;
    }

    fn enter_argument(&mut self) {
        let around = *self.saved.last().unwrap();
        self.around.truncate(around as usize);
        self.at += 1;
    }

    fn leave(&mut self) {
        self.saved.pop();
        self.at += 1;
    }

    fn pass_name(&mut self) {
        let name = word_at(self.text, self.at, b'a');
        let scope = find_scope(self.text, &self.around, name);
        let binder = scope.map(|i| self.around[i]);
        self.tally.note_name(binder, self.at as u32);
        self.at += name.len();
    }

    fn pass_item(&mut self) {
        let item = word_at(self.text, self.at, b'A');
        self.tally.note_item(self.text, item, self.at as u16);
        self.at += item.len();
    }
}
