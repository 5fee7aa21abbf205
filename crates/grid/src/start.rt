ghost use Rattle.std.specs.Prelude.{◌≡◌, map};
ghost use Rattle.grid.specs.States.{first_position, first_state, has_first_earth, sections_of};
ghost use Rattle.std.specs.List.{range_with_len};

use crate::plant::NetworkPlant;
use crate::sections::Sections;
use crate::state::{NetworkState, Position};
use model::fact::Fact;
use std::array;

impl NetworkPlant {
    // The state at the start: just those switches are closed and those earths placed that the first facts say.
    #[tactic(auto, using(crate::proofs::Same::same_state), unfolding(crate::specs::States::first_state))]
    pub fn start(&self) -> NetworkState
        ensures { result ≡ first_state self.now.network self.now.first }
    {
        NetworkState {
            switches: self.first_positions(),
            earths: self.first_earths(),
        }
    }

    // Where the switches stand at the start.
    fn first_positions(&self) -> [Position; 16]
        ensures { result ≡ map (first_position self.now.network self.now.first) (range_with_len 0 16) }
    {
        array::from_fn(|a| Position {
            closed: a < self.network.switches.len() && self.first.holds(Fact { number: a as u16 }),
        })
    }

    // Where earths are placed at the start.
    fn first_earths(&self) -> Sections
        ensures { result ≡ sections_of (has_first_earth self.now.network self.now.first) }
    {
        let sections = self.network.vocabulary.objects;
        Sections::those(sections, |x| {
            self.first.holds(Fact {
                number: u16::from(sections) + u16::from(x),
            })
        })
    }
}
