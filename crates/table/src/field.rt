// Single fields of a slot, and what they say of the node.
ghost use Rattle.std.specs.Prelude.{◌≡◌};
ghost use Rattle.slot.specs.Slot.{link_of};
ghost use Rattle.table.specs.Table.{at};
ghost use Rattle.table.specs.Words.{table_of};
ghost use Rattle.table.specs.Nodes.{is_blossom, present, is_present_defect, outer, inner};

use crate::Table;
use slot::{Link, Node, State};

pub fn state(t: &Table, n: Node) -> State
    ensures { result ≡ (at (table_of t.now) n.0).state }
{
    crate::get(t, n).state
}

pub fn parent(t: &Table, n: Node) -> Node
    ensures { result.0 ≡ (at (table_of t.now) n.0).parent }
{
    crate::get(t, n).parent
}

pub fn first_child(t: &Table, n: Node) -> Node
    ensures { result.0 ≡ (at (table_of t.now) n.0).first_child }
{
    crate::get(t, n).first_child
}

pub fn sibling(t: &Table, n: Node) -> Node
    ensures { result.0 ≡ (at (table_of t.now) n.0).sibling }
{
    crate::get(t, n).sibling
}

pub fn get_first_blossom_child(t: &Table, n: Node) -> Node
    ensures { result.0 ≡ (at (table_of t.now) n.0).ring }
{
    crate::get(t, n).ring
}

pub fn link(t: &Table, n: Node) -> Link
    ensures { link_of result ≡ (at (table_of t.now) n.0).link }
{
    crate::get(t, n).link
}

pub fn is_blossom(t: &Table, n: Node) -> bool
    ensures { result ≡ is_blossom (table_of t.now) n.0 }
{
    crate::counts::begin(t) <= n.0
}

pub fn has_node(t: &Table, n: Node) -> bool
    ensures { result ≡ present (table_of t.now) n.0 }
{
    state(t, n).is_present()
}

pub fn is_present_defect(t: &Table, n: Node) -> bool
    ensures { result ≡ is_present_defect (table_of t.now) n.0 }
{
    n.0 < crate::counts::begin(t) && has_node(t, n)
}

pub fn is_outer(t: &Table, n: Node) -> bool
    ensures { result ≡ outer (table_of t.now) n.0 }
{
    state(t, n).is_outer()
}

pub fn is_inner(t: &Table, n: Node) -> bool
    ensures { result ≡ inner (table_of t.now) n.0 }
{
    state(t, n).is_inner()
}
