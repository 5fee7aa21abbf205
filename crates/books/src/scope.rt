ghost use Rattle.std.specs.Prelude.{◌≡◌, ℕ, ◌<◌, true, false, not, ◌&&◌, ◌||◌, length, ◌==◌};
ghost use Rattle.std.specs.List.{list_all};
ghost use Rattle.model.specs.Atoms.{term_proper};
ghost use Rattle.books.specs.Marks.{has_variable};
ghost use Rattle.books.specs.Nodes.{node_proper};
ghost use Rattle.books.specs.Rules.{Lower};
ghost use Rattle.books.specs.Scopes.{ScopeBelow, ScopeFound};
ghost use Rattle.books.specs.Trees.{formula_at, is_variable};

use crate::node::Node;
use crate::variables::Variables;
use model::term::Term;

// The variables of a formula: those that are free in it, and those that its quantifiers bind.
#[derive(Debug, Clone, Copy, PartialEq, Eq)]
pub(crate) struct Scope {
    pub(crate) free: Variables,
    pub(crate) bound: Variables,
}

// Free and bound variables are said apart: a quantifier takes from the one and adds to the other.
impl Scope {
    // The scope of what has no parts and these variables.
    fn flat(free: Variables) -> Scope
        ensures free { result.free ≡ free }
        ensures bound { (x : ℕ) → has_variable result.bound x ≡ false }
    {
        Scope {
            free,
            bound: Variables::none(),
        }
    }

    // The scope of two terms.
    // It asks for terms that a record can hold, since a variant of an enum keeps no invariant.
    fn of_terms(s: Term, t: Term) -> Scope
        requires { (term_proper s && term_proper t) ≡ true }
        ensures free { (x : ℕ) → has_variable result.free x ≡ (is_variable x s || is_variable x t) }
        ensures bound { (x : ℕ) → has_variable result.bound x ≡ false }
    {
        Scope::flat(Variables::of(s).joined(Variables::of(t)))
    }

    // The scope of two parts side by side.
    fn beside(self, other: Scope) -> Scope
        ensures free { (x : ℕ) → has_variable result.free x ≡ (has_variable self.free x || has_variable other.free x) }
        ensures bound { (x : ℕ) → has_variable result.bound x ≡ (has_variable self.bound x || has_variable other.bound x) }
    {
        Scope {
            free: self.free.joined(other.free),
            bound: self.bound.joined(other.bound),
        }
    }

    // The scope of a quantifier of a variable over parts of this scope.
    // None where a quantifier in them binds the same variable.
    fn below(self, variable: u8) -> Option<Scope>
        requires { variable < 4 }
        ensures { ScopeBelow self variable result }
    {
        if self.bound.has(variable) {
            return None;
        }
        Some(Scope {
            free: self.free.marked(variable, false),
            bound: self.bound.marked(variable, true),
        })
    }
}

// The scope of the formula of node i. None where a quantifier in it lies below another of the same variable.
// The walk goes down to parts of lower numbers, so it ends; it is a form asked for by name (docs/DECISIONS.md).
// It asks for nodes that a record can hold, since a variant of an enum keeps no invariant.
#[tactic(auto, using(crate::proofs::Trees::formula_step), unfolding(crate::specs::Trees::free, crate::specs::Trees::binds, crate::specs::Trees::bound_once))]
pub(crate) fn scope_of(nodes: &[Node], i: u8) -> Option<Scope>
    requires lower { Lower nodes.now }
    requires proper { list_all node_proper nodes.now ≡ true }
    requires within { i < length nodes.now }
    ensures { ScopeFound (formula_at nodes.now i) result }
{
    let node = nodes[usize::from(i)];
    match node {
        Node::True | Node::False => Some(Scope::flat(Variables::none())),
        Node::Atom(a) | Node::Goal(a) => Some(Scope::of_terms(a.first, a.second)),
        Node::Same(s, t) => Some(Scope::of_terms(s, t)),
        Node::Not(a) | Node::Next(a) | Node::Eventually(a) | Node::Always(a) => scope_of(nodes, a),
        Node::And(a, b) | Node::Or(a, b) | Node::Until(a, b) => {
            let first = scope_of(nodes, a)?;
            let second = scope_of(nodes, b)?;
            Some(first.beside(second))
        }
        Node::ForAll(q) | Node::Exists(q) => {
            let range = scope_of(nodes, q.range)?;
            let body = scope_of(nodes, q.body)?;
            range.beside(body).below(q.variable)
        }
    }
}
