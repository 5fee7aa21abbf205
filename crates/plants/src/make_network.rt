ghost use Rattle.std.specs.Prelude.{◌≡◌, Decides};
ghost use Rattle.std.specs.List.{list_all};
ghost use Rattle.plants.specs.Networks.{NetworkMade};
ghost use Rattle.plants.specs.Switches.{network_arities, switch_fits};

use crate::network::{Network, Switch};
use codec::table::Table;
use model::vocabulary::{Arity, Vocabulary};

impl Switch {
    // Whether it joins two different sections, of so many.
    fn joins(self, sections: u8) -> bool
        ensures { result ≡ switch_fits sections self }
    {
        self.from < sections && self.to < sections && self.from != self.to
    }
}

impl Network {
    // A network of these switches, in their order, over the sections of a vocabulary.
    // None where its predicates are not three of one object each, there are more switches than sections, a switch
    // does not join two different sections, or a section is fed that it lacks.
    pub fn new(vocabulary: Vocabulary, switches: &[Switch], fed: u16) -> Option<Network>
        ensures { NetworkMade vocabulary switches.now fed result }
    {
        let sections = vocabulary.objects;
        if !has_three_unary(&vocabulary) || switches.len() > sections as usize {
            return None;
        }
        // fed sections are bits, as a record has them: none may stand behind the last section
        if !all_join(sections, switches) || fed as u32 >= 1 << sections {
            return None;
        }
        Some(Network {
            vocabulary,
            switches: Table::new(switches)?,
            fed,
        })
    }
}

// Whether a vocabulary has three predicates of one object each.
pub fn has_three_unary(vocabulary: &Vocabulary) -> bool
    ensures { Decides result (vocabulary.now.arities ≡ network_arities) }
{
    matches!(
        vocabulary.arities.as_slice(),
        [Arity::One, Arity::One, Arity::One]
    )
}

// Whether each of these switches joins two different sections.
fn all_join(sections: u8, switches: &[Switch]) -> bool
    ensures { result ≡ list_all (switch_fits sections) switches.now }
{
    switches.iter().all(|s| s.joins(sections))
}
