ghost use Rattle.std.specs.Prelude.{◌≡◌};
ghost use Rattle.std.specs.List.{filter_map};
ghost use Rattle.books.specs.declared.node.Node.TheVariants.{True};
ghost use Rattle.books.specs.Nodes.{node_bytes, node_proper, parts};
ghost use Rattle.std.proofs.Common.{rules};

use codec::blank::Blank;
use codec::coded::{Coded, Compact};
use model::term::{Atom, Term};

// What a quantifier has: the atom that its variable ranges over, the body, and the variable.
#[derive(Debug, Clone, Copy, PartialEq, Eq)]
pub struct Quantifier {
    pub range: u8,
    pub body: u8,
    pub variable: u8,
}

// One node of a formula. Its parts are nodes of the same table, by number: boxes need a heap, which a panel lacks.
// A goal is an atom that is asked of the goal instead of the picture.
#[derive(Debug, Clone, Copy, Default, PartialEq, Eq)]
pub enum Node {
    #[default]
    True,
    False,
    Atom(Atom),
    Goal(Atom),
    Same(Term, Term),
    Not(u8),
    And(u8, u8),
    Or(u8, u8),
    Next(u8),
    Eventually(u8),
    Always(u8),
    Until(u8, u8),
    ForAll(Quantifier),
    Exists(Quantifier),
}

impl Node {
    // The numbers of its parts.
    pub(crate) fn parts(self) -> [Option<u8>; 2]
        ensures { filter_map (λ part. part) result ≡ parts self }
    {
        match self {
            Node::Not(a) | Node::Next(a) | Node::Eventually(a) | Node::Always(a) => [Some(a), None],
            Node::And(a, b) | Node::Or(a, b) | Node::Until(a, b) => [Some(a), Some(b)],
            Node::ForAll(q) | Node::Exists(q) => [Some(q.range), Some(q.body)],
            _ => [None, None],
        }
    }
}

impl Blank for Node {
    ghost blank = { True };

    ghost only = { Prim.search rules };
}

// Its bytes are its kind, then its atom, terms, parts or variable, then zeros.
impl Coded<4> for Node {
    ghost code = { node_bytes };

    ghost proper = { node_proper };

    ghost narrow = { Prim.search rules };

    ghost fixed = { Prim.search rules };

    ghost one = { Prim.search rules };

    fn from_array(bytes: &[u8; 4]) -> Option<Node> {
        match *bytes {
            [0, 0, 0, 0] => Some(Node::True),
            [1, 0, 0, 0] => Some(Node::False),
            [2, p, s, t] => Some(Node::Atom(Atom::from_array(&[p, s, t])?)),
            [3, p, s, t] => Some(Node::Goal(Atom::from_array(&[p, s, t])?)),
            [4, 0, s, t] => Some(Node::Same(Term::from_array(&[s])?, Term::from_array(&[t])?)),
            [5, a, 0, 0] => Some(Node::Not(a)),
            [6, a, b, 0] => Some(Node::And(a, b)),
            [7, a, b, 0] => Some(Node::Or(a, b)),
            [8, a, 0, 0] => Some(Node::Next(a)),
            [9, a, 0, 0] => Some(Node::Eventually(a)),
            [10, a, 0, 0] => Some(Node::Always(a)),
            [11, a, b, 0] => Some(Node::Until(a, b)),
            [12, range, body, variable @ 0..=3] => Some(Node::ForAll(Quantifier {
                range,
                body,
                variable,
            })),
            [13, range, body, variable @ 0..=3] => Some(Node::Exists(Quantifier {
                range,
                body,
                variable,
            })),
            _ => None,
        }
    }

    fn encode(&self) -> [u8; 4] {
        match *self {
            Node::True => [0, 0, 0, 0],
            Node::False => [1, 0, 0, 0],
            Node::Atom(a) => {
                let [p, s, t]: [u8; 3] = a.encode();
                [2, p, s, t]
            }
            Node::Goal(a) => {
                let [p, s, t]: [u8; 3] = a.encode();
                [3, p, s, t]
            }
            Node::Same(s, t) => {
                let [s]: [u8; 1] = s.encode();
                let [t]: [u8; 1] = t.encode();
                [4, 0, s, t]
            }
            Node::Not(a) => [5, a, 0, 0],
            Node::And(a, b) => [6, a, b, 0],
            Node::Or(a, b) => [7, a, b, 0],
            Node::Next(a) => [8, a, 0, 0],
            Node::Eventually(a) => [9, a, 0, 0],
            Node::Always(a) => [10, a, 0, 0],
            Node::Until(a, b) => [11, a, b, 0],
            Node::ForAll(q) => [12, q.range, q.body, q.variable],
            Node::Exists(q) => [13, q.range, q.body, q.variable],
        }
    }
}

impl Compact<4> for Node {
    ghost small = { Prim.search rules };
}
