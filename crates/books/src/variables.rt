ghost use Rattle.std.specs.Prelude.{◌≡◌, ℕ, ◌<◌, true, false, ◌||◌, ◌↔◌, ◌==◌, IsTrue, if◌then◌else◌};
ghost use Rattle.model.specs.Atoms.{term_proper};
ghost use Rattle.books.specs.Marks.{has_variable};
ghost use Rattle.books.specs.Trees.{is_variable};

use model::term::Term;
use std::array;
use std::marker::Model;

// A set of variables: for each of the four a mark that says whether it is in the set. Contracts see the marks.
// Marks and no bits: there are four, and one is asked for at a time.
#[derive(Debug, Clone, Copy, PartialEq, Eq)]
pub(crate) struct Variables {
    marks: [bool; 4],
}

impl Model for Variables {
    ghost use Rattle.std.specs.Prelude.{◌≡◌, Bool, List, length, refl};

    ghost Value = { List Bool };

    ghost view = { λ v. v.marks };

    ghost invariant = { λ v. length v.marks ≡ 4 };

    ghost inverse = { λ marks. record { marks = marks } };

    ghost inverse_ok = { λ v h. refl };
}

impl Variables {
    // The empty set.
    pub(crate) fn none() -> Variables
        ensures { (x : ℕ) → has_variable result x ≡ false }
    {
        Variables { marks: [false; 4] }
    }

    // The set with a mark of its own for one variable: put in where the mark is true, taken out where it is false.
    // `mark` is the value that is stored; it chooses no step.
    pub(crate) fn marked(self, variable: u8, mark: bool) -> Variables
        requires { variable < 4 }
        ensures { (x : ℕ) → has_variable result x ≡ (if variable == x then mark else has_variable self x) }
    {
        let mut marks = self.marks;
        marks[usize::from(variable)] = mark;
        Variables { marks }
    }

    // What is in one set or the other.
    pub(crate) fn joined(self, other: Variables) -> Variables
        ensures { (x : ℕ) → has_variable result x ≡ (has_variable self x || has_variable other x) }
    {
        Variables {
            marks: array::from_fn(|x| self.marks[x] || other.marks[x]),
        }
    }

    // The variable that a term is, if it is one.
    // No `From`: it asks for a term that a record can hold, since a variant of an enum keeps no invariant.
    pub(crate) fn of(term: Term) -> Variables
        requires { term_proper term ≡ true }
        ensures { (x : ℕ) → has_variable result x ≡ is_variable x term }
    {
        match term {
            Term::Object(_) => Variables::none(),
            Term::Variable(v) => Variables::none().marked(v, true),
        }
    }

    // Whether a variable is in the set. None behind the fourth is.
    pub(crate) fn has(self, variable: u8) -> bool
        ensures { result ≡ has_variable self variable }
    {
        self.marks.get(usize::from(variable)) == Some(&true)
    }

    // Whether the set is empty.
    pub(crate) fn is_empty(self) -> bool
        ensures { IsTrue result ↔ ((x : ℕ) → has_variable self x ≡ false) }
    {
        !self.marks.contains(&true)
    }
}
