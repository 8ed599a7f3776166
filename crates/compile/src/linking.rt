// Cells and links of a draft.
ghost use Rattle.std.specs.Prelude.{◌≡◌, ◌<◌, ◌≤◌, true, ◌≢◌};
ghost use Rattle.nets.specs.Drafts.{plan, planned};
ghost use Rattle.nets.specs.Views.{at};
ghost use Rattle.compile.specs.Linking.{Linked, Placed};

use books::combinators::GAMMA;
use nets::draft::Draft;
use nets::spot::Spot;

/// Links two spots: the link of each names the other.
pub(crate) fn link(draft: &mut Draft, from: Spot, to: Spot)
    requires there { (planned (plan draft.old) (at from) ≡ true) × (planned (plan draft.old) (at to) ≡ true) }
    requires apart { at from ≢ at to }
    ensures { Linked (plan draft.old) (at from) (at to) (plan draft.new) }
{
    draft.name_link(from, to).unwrap();
    draft.name_link(to, from).unwrap();
}

/// Puts a γ into the next place, and links a spot with one of its ports.
pub(crate) fn place_cell(draft: &mut Draft, spot: Spot, cell: u16, port: u8)
    requires next { ((plan draft.old).cells ≡ cell) × (cell < 1024) }
    requires there { (planned (plan draft.old) (at spot) ≡ true) × (port ≤ 2) }
    ensures { Placed (plan draft.old) (at spot) cell port (plan draft.new) }
{
    draft.add_cell(GAMMA, 2).unwrap();
    link(draft, spot, Spot::Port(cell, port));
}
