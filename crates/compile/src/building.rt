// How a net is built along the text of its term.
ghost use Rattle.std.specs.Prelude.{◌≡◌, [], Some, slice_get};
ghost use Rattle.terms.specs.Walking.{between, Due, Abstraction, Application, BoundName, AnItem, Argument, Closing, Anything};
ghost use Rattle.compile.specs.Building.{Reading, Advances, Begins};

use crate::builder::{Builder, Open};
use crate::linking::{link, place_cell};
use arrayvec::ArrayVec;
use nets::draft::Draft;
use nets::spot::Spot;
use terms::items::Items;
use terms::letters::word_at;
use terms::looking::find_scope;

impl<'t> Builder<'t> {
    /// A walk before the first byte, with the root of the term at end 0.
    pub(crate) fn new(text: &'t [u8], draft: Draft, items: Items) -> Builder<'t>
        ensures { Begins text.now draft items result }
    {
        Builder {
            text,
            at: 0,
            draft,
            cells: 0,
            items,
            spot: Spot::End(0),
            around: ArrayVec::new(),
            binders: ArrayVec::new(),
            opened: ArrayVec::new(),
        }
    }

    /// Walks over the whole text.
    pub(crate) fn walk(&mut self)
        requires { Due (Reading self.old) Anything }
        ensures same { self.new.text.now ≡ self.old.text.now }
        ensures whole { Reading self.new (between []) }
    {
        while let Some(byte) = self.byte() {
            self.turn(byte);
        }
    }

    // Takes the next step, by the byte that is there.
    fn turn(&mut self, byte: u8)
        requires there { slice_get self.old.text.now self.old.at ≡ Some byte }
        requires comes { Due (Reading self.old) Anything }
        ensures { Advances self.old self.new }
    {
        match byte {
            b'\\' => self.enter_body(),
            b'(' => self.enter_function(),
            b' ' => self.enter_argument(),
            b')' => self.leave(),
            b'a'..=b'z' => self.pass_name(),
            _ => self.pass_item(),
        }
    }

    // The byte at the place; none at the end of the text.
    fn byte(&self) -> Option<u8>
        ensures { result ≡ slice_get self.now.text.now self.now.at }
    {
        self.text.get(self.at).copied()
    }

    // Goes into the body of an abstraction: its cell meets the spot at port 0, and its body goes to port 2.
    fn enter_body(&mut self)
        requires { Due (Reading self.old) Abstraction }
        ensures { Advances self.old self.new }
    {
        let name = word_at(self.text, self.at + 1, b'a');
        let cell = self.cells;
        place_cell(&mut self.draft, self.spot, cell, 0);
        self.cells += 1;
        self.spot = Spot::Port(cell, 2);
        self.around.push(self.at as u16 + 1);
        self.binders.push(cell);
        self.at += name.len() + 2;
    }

    // Goes into the function of an application: its cell meets the spot at port 1, and its function goes to port 0.
    fn enter_function(&mut self)
        requires { Due (Reading self.old) Application }
        ensures { Advances self.old self.new }
    {
        let cell = self.cells;
        place_cell(&mut self.draft, self.spot, cell, 1);
        self.cells += 1;
        self.spot = Spot::Port(cell, 0);
        self.opened.push(Open {
            around: self.around.len() as u16,
            cell,
        });
        self.at += 1;
    }

    // Goes on to the argument of an application: it goes to port 2 of its cell.
    fn enter_argument(&mut self)
        requires { Due (Reading self.old) Argument }
        ensures { Advances self.old self.new }
    {
        let last = *self.opened.last().unwrap();
        self.around.truncate(last.around as usize);
        self.binders.truncate(last.around as usize);
        self.spot = Spot::Port(last.cell, 2);
        self.at += 1;
    }

    // Leaves an application.
    fn leave(&mut self)
        requires { Due (Reading self.old) Closing }
        ensures { Advances self.old self.new }
    {
        self.opened.pop();
        self.at += 1;
    }

    // Passes a bound name: the spot is linked with port 1 of its abstraction.
    fn pass_name(&mut self)
        requires { Due (Reading self.old) BoundName }
        ensures { Advances self.old self.new }
    {
        let name = word_at(self.text, self.at, b'a');
        let i = find_scope(self.text, &self.around, name).unwrap();
        link(&mut self.draft, self.spot, Spot::Port(self.binders[i], 1));
        self.at += name.len();
    }

    // Passes an item: the spot is linked with the end of its number.
    fn pass_item(&mut self)
        requires { Due (Reading self.old) AnItem }
        ensures { Advances self.old self.new }
    {
        let item = word_at(self.text, self.at, b'A');
        self.items.add(item).unwrap();
        let number = self.items.len() as u16;
        link(&mut self.draft, self.spot, Spot::End(number));
        self.at += item.len();
    }
}
