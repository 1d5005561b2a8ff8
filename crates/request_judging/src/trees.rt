// The trees that nodes stand in, told by their roots. The climb is bounded, so it ends on any table.
ghost use Rattle.std.specs.Prelude.{◌≡◌};
ghost use Rattle.table.specs.Words.{table_of};
ghost use Rattle.rules.specs.Trees.{root, same_tree};

use slot::Node;
use table::{Table, field};

// The node without a parent that the way up from n comes to, or none if there is no such node within 256 steps.
// Kept: the definition `root` gives a number, none where no root is reached; a climb may also start at none, and then comes to it.
#[tactic(auto, using(crate::proofs::TreesSteps::climbs))]
fn root_of(t: &Table, n: Node) -> Node
    ensures { result.0 ≡ root (table_of t.now) n.0 }
{
    let mut here = n;
    for _ in 0..257usize {
        let above = field::parent(t, here);
        if above.is_none() {
            return here;
        }
        here = above;
    }
    Node::NONE
}

pub fn same_tree(t: &Table, a: Node, b: Node) -> bool
    ensures { result ≡ same_tree (table_of t.now) a.0 b.0 }
{
    let root_a = root_of(t, a);
    !root_a.is_none() && root_a == root_of(t, b)
}
