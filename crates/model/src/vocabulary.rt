ghost use Rattle.std.specs.Prelude.{◌≡◌, ◌≤◌, true, [], ◌∷◌, length};
ghost use Rattle.model.specs.declared.vocabulary.Arity.TheVariants.{Zero};
ghost use Rattle.model.specs.Facts.{arity_byte, facts};
ghost use Rattle.std.proofs.Common.{rules};

use codec::blank::Blank;
use codec::coded::{Coded, Compact};
use codec::table::Table;

// How many objects a predicate takes.
#[derive(Debug, Clone, Copy, Default, PartialEq, Eq)]
pub enum Arity {
    #[default]
    Zero,
    One,
    Two,
}

impl Blank for Arity {
    ghost blank = { Zero };

    ghost only = { Prim.search rules };
}

impl Coded<1> for Arity {
    ghost code = { λ a. arity_byte a ∷ [] };

    ghost proper = { λ _. true };

    ghost narrow = { Prim.search rules };

    ghost fixed = { Prim.search rules };

    ghost one = { Prim.search rules };

    fn from_array(bytes: &[u8; 1]) -> Option<Arity> {
        match *bytes {
            [0] => Some(Arity::Zero),
            [1] => Some(Arity::One),
            [2] => Some(Arity::Two),
            _ => None,
        }
    }

    fn encode(&self) -> [u8; 1] {
        match *self {
            Arity::Zero => [0],
            Arity::One => [1],
            Arity::Two => [2],
        }
    }
}

impl Compact<1> for Arity {
    ghost small = { Prim.search rules };
}

// The objects and predicates of a feeder. Objects are 0 to objects - 1; a predicate is known by its place among the arities.
#[derive(Clone, Copy)]
pub struct Vocabulary {
    pub objects: u8,
    pub arities: Table<Arity, 16>,
    ghost low: { 1 ≤ objects },
    ghost high: { objects ≤ 16 },
    ghost some: { 1 ≤ length arities },
    // the table's own limit once more, since contracts see of a table only the list of its values
    ghost few: { length arities ≤ 16 },
    ghost bound: { facts objects arities ≤ 512 },
}
