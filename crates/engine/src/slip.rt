ghost use Rattle.std.specs.Prelude.{◌≡◌};
ghost use Rattle.engine.specs.States.{slip_places};

/// The token for a pair that is out: the stamp of its run and the pair's places, L first.
/// It can't be copied or let go: a rewrite or a put back must spend it.
pub struct Slip {
    pub(crate) stamp: u32,
    pub(crate) left: u16,
    pub(crate) right: u16,
}

impl Slip {
    /// The pair's places, two plain numbers as the calls of a table take them; the slip is gone.
    pub(crate) fn spend(self) -> (u16, u16)
        ensures { result ≡ slip_places self }
    {
        let Slip {
            stamp: _,
            left,
            right,
        } = self;
        (left, right)
    }
}
