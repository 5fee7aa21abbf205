ghost use Rattle.std.specs.Prelude.{◌≡◌, true, [], ◌∷◌};
ghost use Rattle.model.specs.declared.term.Term.TheVariants.{Object};
ghost use Rattle.model.specs.Atoms.{atom_bytes, atom_proper, term_byte, term_proper};
ghost use Rattle.std.proofs.Common.{rules};

use codec::coded::{Coded, Compact};

// What an atom speaks of: an object by its number, or a variable by its number.
// A variable stands for an operator's parameter or for what a quantifier binds.
#[derive(Debug, Clone, Copy, PartialEq, Eq)]
pub enum Term {
    Object(u8),
    Variable(u8),
}

// What stands for a term that is not in use is object 0.
// By hand, since a variant with a number in it has no derived default.
impl Default for Term {
    ghost is_default = { λ t. t ≡ Object 0 };

    fn default() -> Term {
        Term::Object(0)
    }
}

// A predicate applied to two terms; a term that the predicate lacks is object 0.
#[derive(Debug, Clone, Copy, Default, PartialEq, Eq)]
pub struct Atom {
    pub predicate: u8,
    pub first: Term,
    pub second: Term,
}

// The bytes 0 to 15 stand for objects, 16 to 19 for variables.
impl Coded<1> for Term {
    ghost code = { λ t. term_byte t ∷ [] };

    ghost proper = { term_proper };

    ghost narrow = { Prim.search rules };

    ghost fixed = { Prim.search rules };

    ghost one = { Prim.search rules };

    fn from_array(bytes: &[u8; 1]) -> Option<Term> {
        match *bytes {
            [o @ 0..=15] => Some(Term::Object(o)),
            [v @ 16..=19] => Some(Term::Variable(v - 16)),
            _ => None,
        }
    }

    fn encode(&self) -> [u8; 1] {
        match *self {
            Term::Object(o) => [o],
            Term::Variable(v) => [v.saturating_add(16)],
        }
    }
}

impl Compact<1> for Term {
    ghost small = { Prim.search rules };
}

impl Coded<3> for Atom {
    ghost code = { atom_bytes };

    ghost proper = { atom_proper };

    ghost narrow = { Prim.search rules };

    ghost fixed = { Prim.search rules };

    ghost one = { Prim.search rules };

    fn from_array(bytes: &[u8; 3]) -> Option<Atom> {
        let [predicate, first, second] = *bytes;
        Some(Atom {
            predicate,
            first: Term::from_array(&[first])?,
            second: Term::from_array(&[second])?,
        })
    }

    fn encode(&self) -> [u8; 3] {
        let [first]: [u8; 1] = self.first.encode();
        let [second]: [u8; 1] = self.second.encode();
        [self.predicate, first, second]
    }
}

impl Compact<3> for Atom {
    ghost small = { Prim.search rules };
}
