ghost use Rattle.std.specs.Prelude.{◌≡◌, ℕ, ◌*◌, ◌<◌, ◌≤◌, ◌↔◌, IsTrue, length, slice_index};
ghost use Rattle.books.specs.Rules.{Lower, Once, PartsUsed, UsesCounted};

use crate::node::Node;

// Counts one use more of each part of node i. None where some part's number is not lower than the node's.
fn use_parts(used: &mut [u8; 120], node: Node, i: usize) -> Option<()>
    requires node { i < 120 }
    requires few { (j : ℕ) → j < 120 → slice_index used.old j ≤ 2 * i }
    ensures { PartsUsed node i used.old used.new result }
{
    // not over `flatten`: the proof of that loop did not close
    for part in node.parts() {
        if let Some(part) = part {
            let part = usize::from(part);
            if part >= i {
                return None;
            }
            used[part] += 1;
        }
    }
    Some(())
}

// How often each node is a part, counted over all nodes.
// None where some part's number is not lower than its node's.
#[tactic(auto, using(crate::proofs::Counts::two_parts))]
fn count_uses(nodes: &[Node]) -> Option<[u8; 120]>
    requires { length nodes.now ≤ 120 }
    ensures { UsesCounted nodes.now result }
{
    // one count for each number of a node: a form asked for by name (docs/DECISIONS.md)
    let mut used = [0; 120];
    for (i, node) in nodes.iter().enumerate() {
        use_parts(&mut used, *node, i)?;
    }
    Some(used)
}

// Whether parts have lower numbers and every node except the last is a part just once.
pub(crate) fn is_tree(nodes: &[Node]) -> bool
    requires some { 1 ≤ length nodes.now }
    requires few { length nodes.now ≤ 120 }
    ensures { IsTrue result ↔ (Lower nodes.now × Once nodes.now) }
{
    // by let-else, since a closure would have to say both conditions over again
    let Some(used) = count_uses(nodes) else {
        return false;
    };
    used[..nodes.len() - 1].iter().all(|uses| *uses == 1)
}
