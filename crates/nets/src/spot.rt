// The spots of a net.
ghost use Rattle.std.specs.Prelude.{◌≡◌, ◌<◌};
ghost use Rattle.nets.specs.Layout.{slots, slot_of, code};
ghost use Rattle.nets.specs.Views.{at};

use crate::link::{FIRST_END, Link};

/// Where a wire can end: an end of the net, or a port of the cell in a place. Port 0 is the principal port.
#[derive(Clone, Copy, PartialEq, Eq, Debug)]
pub enum Spot {
    End(u16),
    Port(u16, u8),
}

impl Spot {
    // The link that names it.
    pub(crate) fn link(self) -> Link
        requires { code (at self) < slots }
        ensures { slot_of result ≡ code (at self) }
    {
        match self {
            Spot::End(e) => Link {
                row: FIRST_END + e,
                port: 0,
            },
            Spot::Port(row, port) => Link { row, port },
        }
    }
}
