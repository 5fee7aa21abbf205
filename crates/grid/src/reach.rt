ghost use Rattle.std.specs.Prelude.{◌≡◌, ℕ, ◌<◌, ◌≤◌};
ghost use Rattle.model.specs.Pictures.{bit};
ghost use Rattle.grid.specs.Reached.{Reached, with_ends};

use crate::sections::Sections;
use crate::state::{NetworkState, Position};
use plants::network::{Network, Switch};

// The sections to which paths of closed switches, of any length and of length zero too, lead from some sources.
// Each round lets every switch spread what is reached to its other end, until a whole round adds nothing, or every
// section is reached.
pub fn reach(network: &Network, state: &NetworkState, sources: Sections) -> Sections
    ensures { Reached network.now state.now sources result }
{
    let all = Sections::all(network);
    let mut reached = sources;
    // labelled exits: a form asked for by name (docs/DECISIONS.md)
    'grow: loop {
        let before = reached;
        for (switch, position) in network.switches.as_slice().iter().zip(&state.switches) {
            reached = spread(*switch, *position, reached);
            if reached == all {
                break 'grow;
            }
        }
        if reached == before {
            break 'grow;
        }
    }
    reached
}

// What is reached with the help of one switch too: both its ends, where it is closed and one of them is reached.
fn spread(switch: Switch, position: Position, reached: Sections) -> Sections
    ensures ends { (x : ℕ) → x < 16 → bit result.bits x ≡ with_ends switch position.closed (bit reached.bits) x }
    ensures more { reached.bits ≤ result.bits }
{
    if position.closed && (reached.has(switch.from) || reached.has(switch.to)) {
        reached.with(switch.from).with(switch.to)
    } else {
        reached
    }
}
