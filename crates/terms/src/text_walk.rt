// A walk over the text of a term.
ghost use Rattle.std.specs.Prelude.{◌≡◌, ℕ, List, [], Some};
ghost use Rattle.std.specs.List.{slice_get};
ghost use Rattle.terms.specs.Walking.{Todo, between, Abstraction, Application, BoundName, AnItem, Argument, Closing, Anything, Stands, Due, Goes};

/// A walk over the text of a term, by a byte or by a word at a time.
pub(crate) trait TextWalk {
    /// The text.
    ghost text: { Self → List ℕ };

    /// The place that the walk has come to.
    ghost at: { Self → ℕ };

    /// Whether this is to be read there.
    ghost Reading: { Self → Todo → Type 0 };

    /// The byte there; none at the end of the text.
    fn byte(&self) -> Option<u8>
        ensures { result ≡ slice_get (text self.now) (at self.now) };

    /// Goes into the body of an abstraction.
    fn enter_body(&mut self)
        requires { Due (Reading self.old) Abstraction }
        ensures { Goes text at Reading self.old self.new };

    /// Goes into the function of an application.
    fn enter_function(&mut self)
        requires { Due (Reading self.old) Application }
        ensures { Goes text at Reading self.old self.new };

    /// Goes on to the argument of an application.
    fn enter_argument(&mut self)
        requires { Due (Reading self.old) Argument }
        ensures { Goes text at Reading self.old self.new };

    /// Leaves an application.
    fn leave(&mut self)
        requires { Due (Reading self.old) Closing }
        ensures { Goes text at Reading self.old self.new };

    /// Passes a bound name.
    fn pass_name(&mut self)
        requires { Due (Reading self.old) BoundName }
        ensures { Goes text at Reading self.old self.new };

    /// Passes an item.
    fn pass_item(&mut self)
        requires { Due (Reading self.old) AnItem }
        ensures { Goes text at Reading self.old self.new };

    /// What is to be read stands in the text.
    ghost stands: { (w : Self) (z : Todo) → Reading w z → Stands (text w) (at w) z };

    /// Takes the next step, by the byte that is there.
    final fn turn(&mut self, byte: u8)
        requires there { slice_get (text self.old) (at self.old) ≡ Some byte }
        requires comes { Due (Reading self.old) Anything }
        ensures { Goes text at Reading self.old self.new }
    {
        match byte {
            b'\\' => self.enter_body(),
            b'(' => self.enter_function(),
            b' ' => self.enter_argument(),
            b')' => self.leave(),
            b'a'..=b'z' => self.pass_name(),
            _ => self.pass_item(),
        }
    }

    /// Walks over the whole text.
    final fn walk(&mut self)
        requires { Due (Reading self.old) Anything }
        ensures same { text self.new ≡ text self.old }
        ensures whole { Reading self.new (between []) }
    {
        while let Some(byte) = self.byte() {
            self.turn(byte);
        }
    }
}
