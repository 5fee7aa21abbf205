ghost use Rattle.std.specs.Prelude.{◌≡◌, ◌≤◌, length};
ghost use Rattle.model.specs.Facts.{facts, facts_of};
ghost use Rattle.model.specs.Vocabularies.{VocabularyMade, arity_at, atom_fits, fact_total, term_blank, term_fits};

use crate::term::{Atom, Term};
use crate::vocabulary::{Arity, Vocabulary};
use codec::table::Table;

impl Arity {
    // How many facts a predicate of this arity has over some objects.
    // Of a number of objects and no vocabulary, since `total` asks it before there is one.
    pub fn facts(self, objects: u8) -> u16
        ensures { result ≡ facts_of objects self }
    {
        let n = objects as u16;
        match self {
            Arity::Zero => 1,
            Arity::One => n,
            Arity::Two => n * n,
        }
    }
}

impl Term {
    // Whether it is one of the objects, or one of the variables at hand.
    pub fn fits(self, objects: u8, variables: u8) -> bool
        ensures { result ≡ term_fits objects variables self }
    {
        match self {
            Term::Object(o) => o < objects,
            Term::Variable(v) => v < variables,
        }
    }

    // Whether it is what stands for a term that is not in use.
    pub fn is_blank(self) -> bool
        ensures { result ≡ term_blank self }
    {
        self == Term::Object(0)
    }
}

impl Vocabulary {
    // A vocabulary of some objects and of predicates with these arities.
    // None where there are not 1 to 16 of each, or more than 512 facts.
    pub fn new(objects: u8, arities: &[Arity]) -> Option<Vocabulary>
        ensures { VocabularyMade objects arities.now result }
    {
        let table = Table::new(arities)?;
        // counted from numbers: there is no vocabulary before the sum is known to be small enough
        if !(1..=16).contains(&objects) || arities.is_empty() || total(objects, arities) > 512 {
            return None;
        }
        Some(Vocabulary {
            objects,
            arities: table,
        })
    }

    // How many facts it has.
    pub fn facts(&self) -> u16
        ensures { result ≡ fact_total self.now }
    {
        total(self.objects, self.arities.as_slice())
    }

    // The arity of a predicate, if there is such a predicate.
    pub fn arity(&self, predicate: u8) -> Option<Arity>
        ensures { result ≡ arity_at self.now predicate }
    {
        self.arities.as_slice().get(predicate as usize).copied()
    }

    // Whether it has this atom, with some variables at hand.
    pub fn has(&self, variables: u8, atom: Atom) -> bool
        ensures { result ≡ atom_fits self.now variables atom }
    {
        let n = self.objects;
        match self.arity(atom.predicate) {
            None => false,
            Some(Arity::Zero) => atom.first.is_blank() && atom.second.is_blank(),
            Some(Arity::One) => atom.first.fits(n, variables) && atom.second.is_blank(),
            Some(Arity::Two) => atom.first.fits(n, variables) && atom.second.fits(n, variables),
        }
    }
}

// How many facts predicates of these arities have.
// Of numbers and no vocabulary, since one is made only where this sum is small enough.
pub(crate) fn total(objects: u8, arities: &[Arity]) -> u16
    requires { (length arities.now ≤ 16) × (objects ≤ 16) }
    ensures sum { result ≡ facts objects arities.now }
    ensures bound { result ≤ 4096 }
{
    arities.iter().map(|a| a.facts(objects)).sum()
}
