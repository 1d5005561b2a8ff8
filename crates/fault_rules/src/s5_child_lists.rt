// S5, at the node whose child list it is: the walk along the list ends and meets children of the node alone, and it meets every one.
ghost use Rattle.std.specs.Prelude.{◌≡◌};
ghost use Rattle.table.specs.Words.{table_of};
ghost use Rattle.rules.specs.Sound.{s5};
ghost use Rattle.sound_walks.specs.Pass.{all_from};
ghost use Rattle.fault_rules.specs.Walked.{child_listed};

use slot::Node;
use sound_walks::children;
use table::{Table, marks};

fn is_listed(t: &Table, listed: &[u8], n: Node, child: Node) -> bool
    ensures { result ≡ child_listed (table_of t.now) listed.now n.0 child.0 }
{
    !children::is_child(t, n, child) || marks::is_marked(listed, child)
}

fn all_listed(t: &Table, listed: &[u8], n: Node) -> bool
    ensures { result ≡ all_from (child_listed (table_of t.now) listed.now n.0) 256 0 }
{
    (0..256).all(|i| is_listed(t, listed, n, Node(i)))
}

pub fn holds(t: &Table, n: Node) -> bool
    ensures { result ≡ s5 (table_of t.now) n.0 }
{
    if !table::field::is_outer(t, n) {
        return true;
    }
    let mut listed = [0u8; 256];
    if !children::list_step(t, &mut listed, n) {
        return false;
    }
    all_listed(t, &listed, n)
}
