ghost use Rattle.std.specs.Prelude.{◌≡◌, ◌↔◌, IsTrue};
ghost use Rattle.books.specs.Rules.{Fits, node_fits, quantifier_fits, ranges};
ghost use Rattle.books.specs.Trees.{mentions};

use crate::node::{Node, Quantifier};
use model::term::{Atom, Term};
use model::vocabulary::Vocabulary;

// Whether an atom mentions the variable x.
fn mentions_variable(atom: Atom, x: u8) -> bool
    ensures { result ≡ mentions x atom }
{
    [atom.first, atom.second].contains(&Term::Variable(x))
}

impl Quantifier {
    // Whether it binds one of the four variables, over a range among some nodes that mentions it.
    fn fits(self, nodes: &[Node]) -> bool
        ensures { result ≡ quantifier_fits nodes.now self }
    {
        let range = nodes.get(usize::from(self.range));
        self.variable < 4 && range.is_some_and(|node| node.can_range(self.variable))
    }
}

impl Node {
    // Whether it can be the range of a quantifier of the variable x.
    fn can_range(self, x: u8) -> bool
        ensures { result ≡ ranges x self }
    {
        matches!(self, Node::Atom(a) | Node::Goal(a) if mentions_variable(a, x))
    }

    // Whether it speaks only of what the vocabulary has, and of the four variables. Its parts are among some nodes.
    fn fits(self, vocabulary: &Vocabulary, nodes: &[Node]) -> bool
        ensures { result ≡ node_fits vocabulary.now nodes.now self }
    {
        match self {
            Node::Atom(a) | Node::Goal(a) => vocabulary.has(4, a),
            Node::Same(s, t) => s.fits(vocabulary.objects, 4) && t.fits(vocabulary.objects, 4),
            Node::ForAll(q) | Node::Exists(q) => q.fits(nodes),
            _ => true,
        }
    }
}

// Whether every node fits.
pub(crate) fn all_fit(vocabulary: &Vocabulary, nodes: &[Node]) -> bool
    ensures { IsTrue result ↔ Fits vocabulary.now nodes.now }
{
    nodes.iter().all(|node| node.fits(vocabulary, nodes))
}
