ghost use Rattle.std.specs.Prelude.{◌≡◌, ℕ, ◌<◌};
ghost use Rattle.model.specs.Drawn.{bits_of};
ghost use Rattle.model.specs.Pictures.{bit, holds};
ghost use Rattle.grid.specs.Shown.{Depicts, network_shown, side_by_side};

use crate::plant::NetworkPlant;
use crate::reach::reach;
use crate::sections::Sections;
use crate::state::NetworkState;
use model::picture::Picture;
use plants::network::Network;

impl NetworkPlant {
    // The picture of a state: the closed switches, the sections with an earth and the live sections, each by its facts.
    // A section is live where a path of closed switches, of any length and of length zero too, leads to it from a fed one.
    pub fn draw(&self, state: &NetworkState) -> Picture
        ensures shown { result ≡ network_shown self.now.network state.now }
        ensures law { Depicts self.now.network state.now result }
    {
        let fed = Sections {
            bits: self.network.fed,
        };
        let closed = state.closed(&self.network);
        let live = reach(&self.network, state, fed);
        pack(&self.network, closed, state.earths, live)
    }
}

// The picture of a network's three predicates, each given by what it is said of; a network has at most 48 facts, so one
// word holds them.
fn pack(network: &Network, closed: Sections, earthed: Sections, live: Sections) -> Picture
    ensures { let n = network.now.vocabulary.objects in (f : ℕ) → f < 512 → holds result f ≡ side_by_side n (bits_of n (bit closed.bits)) (bits_of n (bit earthed.bits)) (bits_of n (bit live.bits)) f }
{
    let sections = network.vocabulary.objects;
    // bits shifted as the picture numbers its facts: first closed, then earthed, then live
    let word = u64::from(closed.within(network))
        | u64::from(earthed.within(network)) << sections
        | u64::from(live.within(network)) << (2 * sections);
    Picture {
        words: [word, 0, 0, 0, 0, 0, 0, 0],
    }
}
