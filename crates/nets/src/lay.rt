// The wires of a rule laid into the links of a table.
ghost use Rattle.std.specs.Prelude.{◌≡◌};
ghost use Rattle.books.specs.Tables.{port_of, wires_of};
ghost use Rattle.nets.specs.Layout.{slot_of};
ghost use Rattle.nets.specs.Rewiring.{Known, seat_of, Room, Laid};

use crate::link::{LEFT_GATE, Link, RIGHT_GATE};
use crate::links::Links;
use books::table::{RulePort, RuleTable, Wire};

// All wires of the rule, its new cells at the places given, L and R at their gates.
pub(crate) fn lay(links: &mut Links, rule: &RuleTable, places: &[u16])
    requires { Room (wires_of rule.now) places.now }
    ensures { Laid links.old.targets.items (wires_of rule.now) places.now links.new.targets.items }
{
    for Wire(from, to) in rule.wires {
        links.join(moved(*from, places), moved(*to, places));
    }
}

// The link to a port of the rule.
fn moved(port: RulePort, places: &[u16]) -> Link
    requires { Known places.now (port_of port) }
    ensures { slot_of result ≡ seat_of places.now (port_of port) }
{
    match port {
        RulePort::L(port) => Link {
            row: LEFT_GATE,
            port,
        },
        RulePort::R(port) => Link {
            row: RIGHT_GATE,
            port,
        },
        RulePort::N(i, port) => Link {
            row: places[i as usize],
            port,
        },
    }
}
