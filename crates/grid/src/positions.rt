ghost use Rattle.std.specs.Prelude.{◌≡◌, ℕ, ◌<◌};
ghost use Rattle.model.specs.Pictures.{bit};
ghost use Rattle.grid.specs.States.{closed_at, is_closed, with_earth, with_position};

use crate::sections::Sections;
use crate::state::NetworkState;
use plants::network::Network;

impl NetworkState {
    // Puts a switch into a position. Nothing else that is stored changes.
    // `closed` is the value that is stored; it chooses no step.
    pub(crate) fn put_switch(&mut self, a: u8, closed: bool)
        requires { a < 16 }
        ensures { self.new ≡ with_position self.old a closed }
    {
        // one record is lent and changed: a form asked for by name (docs/DECISIONS.md)
        let switch = &mut self.switches[usize::from(a)];
        switch.closed = closed;
    }

    // Places an earth at a section, or lifts it. Nothing else that is stored changes.
    pub(crate) fn put_earth(&mut self, section: u8, there: bool)
        ensures { self.new ≡ with_earth self.old section there }
    {
        self.earths = if there {
            self.earths.with(section)
        } else {
            self.earths.without(section)
        };
    }

    // Whether the place of a switch says closed.
    pub(crate) fn is_closed(&self, a: u8) -> bool
        ensures { result ≡ closed_at self.now a }
    {
        self.switches
            .get(usize::from(a))
            .is_some_and(|switch| switch.closed)
    }

    // The closed ones of a network's switches.
    pub(crate) fn closed(&self, network: &Network) -> Sections
        ensures { (k : ℕ) → bit result.bits k ≡ is_closed network.now self.now k }
    {
        Sections::those(network.switches.len() as u8, |a| self.is_closed(a))
    }
}
