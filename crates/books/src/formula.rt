ghost use Rattle.std.specs.Prelude.{◌≡◌, ◌≤◌, true, length};
ghost use Rattle.books.specs.Rules.{Closed, Fits, Lower, Once, whole_formula};
ghost use Rattle.books.specs.Trees.{bound_once};

use crate::node::Node;
use codec::table::Table;
use model::vocabulary::Vocabulary;

// A formula over a vocabulary: 1 to 120 nodes, the last of which is the whole formula.
// The parts of a node have lower numbers, and every node except the last is a part just once, so the nodes make one tree
// and a recursion over it ends. No variable is free, and none is bound again below its quantifier.
#[derive(Clone, Copy)]
pub struct FormulaTable {
    pub vocabulary: Vocabulary,
    pub nodes: Table<Node, 120>,
    ghost some: { 1 ≤ length nodes },
    // the table's own limit once more, since contracts see of a table only the list of its values
    ghost few: { length nodes ≤ 120 },
    ghost lower: { Lower nodes },
    ghost once: { Once nodes },
    ghost fits: { Fits vocabulary nodes },
    ghost closed: { Closed (whole_formula nodes) },
    ghost bound: { bound_once (whole_formula nodes) ≡ true },
}
