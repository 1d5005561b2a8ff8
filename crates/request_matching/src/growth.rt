// Loading a node, and growing a tree by a matched pair (01, "What a conflict does").
ghost use Rattle.std.specs.Prelude.{◌≡◌};
ghost use Rattle.slot.specs.Slot.{link_of};
ghost use Rattle.table.specs.Words.{table_of};
ghost use Rattle.rules.specs.Act.{alter};
ghost use Rattle.rules.specs.Doing.{Does};
ghost use Rattle.rules.specs.Trees.{loaded};
ghost use Rattle.rules.specs.Conflict.{leaf_below, minus_below, root_above, grow_tree, hang_pair};

use record::Speed;
use record_answers::commands;
use record_fields::Output;
use slot::{Link, Node, Slot, State};
use table::storing::Pointer;
use table::{Table, counts, field, storing};

// An empty defect slot becomes a new node, and the count of defects reaches past it.
#[tactic(auto, using(crate::proofs::GrowthSteps::loads))]
pub fn load(t: &mut Table, n: Node)
    ensures { table_of t.new ≡ loaded n.0 (table_of t.old) }
{
    if counts::begin(t) <= n.0 || field::has_node(t, n) {
        return;
    }
    storing::store(t, n, Slot::new_node());
    if counts::count_defects(t) <= n.0 {
        counts::set_count_defects(t, n.0 + 1);
    }
}

#[tactic(auto, unfolding(rules::specs::Act::alter))]
fn set_root(t: &mut Table, n: Node, first_child: Node)
    ensures { table_of t.new ≡ alter n.0 (root_above first_child.0) (table_of t.old) }
{
    let s = table::get(t, n);
    storing::store(
        t,
        n,
        Slot {
            state: State::Grow,
            first_child,
            ..s
        },
    );
}

#[tactic(auto, unfolding(rules::specs::Act::alter))]
fn set_minus(t: &mut Table, n: Node, parent: Node, first_child: Node, sibling: Node, link: Link)
    ensures { table_of t.new ≡ alter n.0 (minus_below parent.0 first_child.0 sibling.0 (link_of link)) (table_of t.old) }
{
    let ring = table::get(t, n).ring;
    storing::store(
        t,
        n,
        Slot {
            state: State::Shrink,
            parent,
            first_child,
            sibling,
            ring,
            link,
        },
    );
}

#[tactic(auto, unfolding(rules::specs::Act::alter))]
fn set_leaf(t: &mut Table, n: Node, parent: Node)
    ensures { table_of t.new ≡ alter n.0 (leaf_below parent.0) (table_of t.old) }
{
    let s = table::get(t, n);
    storing::store(
        t,
        n,
        Slot {
            state: State::Grow,
            parent,
            sibling: Node::NONE,
            ..s
        },
    );
}

// A free node becomes a root, the matched node its child and the peer the grandchild. The link is as the matched node sees it.
#[tactic(auto, using(rules::proofs::Runs::runs), unfolding(rules::specs::Conflict::grow_tree))]
pub fn grow_tree(t: &mut Table, out: &mut Output, root: Node, link: Link, matched: Node, peer: Node)
    ensures { Does (grow_tree root.0 (link_of link) matched.0 peer.0) t.old out.old t.new out.new }
{
    commands::speed(out, root, Speed::Grow);
    commands::speed(out, matched, Speed::Shrink);
    commands::speed(out, peer, Speed::Grow);
    set_root(t, root, matched);
    set_minus(t, matched, root, peer, Node::NONE, link);
    set_leaf(t, peer, matched);
}

// The matched node goes first in the + node's child list, and the peer below it.
#[tactic(auto, using(rules::proofs::Runs::runs), unfolding(rules::specs::Conflict::hang_pair, rules::specs::Act::alter))]
pub fn hang_pair(t: &mut Table, out: &mut Output, plus: Node, link: Link, matched: Node, peer: Node)
    ensures { Does (hang_pair plus.0 (link_of link) matched.0 peer.0) t.old out.old t.new out.new }
{
    commands::speed(out, matched, Speed::Shrink);
    commands::speed(out, peer, Speed::Grow);
    let first_child = field::first_child(t, plus);
    storing::store_pointer(t, plus, Pointer::FirstChild, matched);
    set_minus(t, matched, plus, peer, first_child, link);
    set_leaf(t, peer, matched);
}
