ghost use Rattle.books.specs.Tables.{FormulaMade, NodeAsked};

use crate::fitting::all_fit;
use crate::formula::FormulaTable;
use crate::node::Node;
use crate::scope::scope_of;
use crate::uses::is_tree;
use codec::table::Table;
use model::vocabulary::Vocabulary;

impl FormulaTable {
    // The formula over a vocabulary that has these nodes. None where they break a rule.
    pub fn new(vocabulary: Vocabulary, nodes: &[Node]) -> Option<FormulaTable>
        ensures { FormulaMade vocabulary nodes.now result }
    {
        let table = Table::new(nodes)?;
        if nodes.is_empty() || !is_tree(nodes) || !all_fit(&vocabulary, nodes) {
            return None;
        }
        let scope = scope_of(nodes, nodes.len() as u8 - 1)?;
        if !scope.free.is_empty() {
            return None;
        }
        Some(FormulaTable {
            vocabulary,
            nodes: table,
        })
    }

    // Node i. None where the table has fewer nodes.
    #[tactic(auto, using(crate::proofs::Trees::formula_step))]
    pub fn node(&self, i: u8) -> Option<Node>
        ensures { NodeAsked self.now i result }
    {
        self.nodes.as_slice().get(usize::from(i)).copied()
    }
}
