ghost use Rattle.std.specs.Prelude.{Some};
ghost use Rattle.refusals.specs.Shown.{layer_name};

use std::fmt;

/// The part of the engine that a refusal comes from, in the order of the parts.
#[derive(Clone, Copy, Debug, PartialEq, Eq)]
pub enum Layer {
    Order,
    Text,
    File,
    Net,
    Strategy,
    Run,
    Reading,
}

impl fmt::Display for Layer {
    ghost output = { λ l. Some (layer_name l) };

    fn fmt<W: fmt::Write>(&self, f: &mut fmt::Formatter<W>) -> fmt::Result {
        f.write_str(match self {
            Layer::Order => "order",
            Layer::Text => "text",
            Layer::File => "file",
            Layer::Net => "net",
            Layer::Strategy => "strategy",
            Layer::Run => "run",
            Layer::Reading => "reading",
        })
    }
}
