ghost use Rattle.std.specs.Prelude.{◌≡◌, ◌^◌, ◌<◌, ◌≤◌, true, map, length};
ghost use Rattle.std.specs.List.{list_all};
ghost use Rattle.model.specs.Facts.{arity_byte};
ghost use Rattle.plants.specs.Switches.{blank_switch, network_arities, switch_bytes, switch_fits};
ghost use Rattle.std.proofs.Common.{rules};

use codec::blank::Blank;
use codec::coded::{Coded, Compact};
use codec::table::Table;
use model::vocabulary::Vocabulary;

// A switch joins two sections, named by their numbers.
#[derive(Debug, Clone, Copy, Default, PartialEq, Eq)]
pub struct Switch {
    pub from: u8,
    pub to: u8,
}

impl Blank for Switch {
    ghost blank = { blank_switch };

    ghost only = { Prim.search rules };
}

impl Coded<2> for Switch {
    ghost code = { switch_bytes };

    ghost proper = { λ _. true };

    ghost narrow = { Prim.search rules };

    ghost fixed = { Prim.search rules };

    ghost one = { Prim.search rules };

    fn from_array(bytes: &[u8; 2]) -> Option<Switch> {
        let [from, to] = *bytes;
        Some(Switch { from, to })
    }

    fn encode(&self) -> [u8; 2] {
        [self.from, self.to]
    }
}

impl Compact<2> for Switch {
    ghost small = { Prim.search rules };
}

// A plant given by its switches. The objects of its vocabulary are the sections. Its predicates, each of one object, are
// closed (of a switch, by its number), earthed and live (of a section). Bit s of `fed` says whether section s is fed.
#[derive(Clone, Copy)]
pub struct Network {
    pub vocabulary: Vocabulary,
    pub switches: Table<Switch, 16>,
    // bits, as a record has them: none may stand behind the last section
    pub fed: u16,
    // by bytes: an invariant may have one proof only, which an equation of numbers is known to have
    ghost unary: { map arity_byte vocabulary.arities ≡ map arity_byte network_arities },
    ghost few: { length switches ≤ vocabulary.objects },
    ghost ends: { list_all (switch_fits vocabulary.objects) switches ≡ true },
    ghost feeds: { fed < 2 ^ vocabulary.objects },
}
