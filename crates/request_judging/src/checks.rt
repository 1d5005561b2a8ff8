// The checks of a request that ask about more than the state of a node (01, "Numbers given back").
ghost use Rattle.std.specs.Prelude.{◌≡◌, not, ◌||◌};
ghost use Rattle.slot.specs.State.{is_present};
ghost use Rattle.table.specs.Table.{at};
ghost use Rattle.table.specs.Words.{table_of};
ghost use Rattle.table.specs.Place.{in_tree};
ghost use Rattle.rules.specs.Trees.{seen};
ghost use Rattle.rules.specs.Blossom.{lacks_blossom_slot};
ghost use Rattle.rules.specs.Refusals.{is_no_vertex, makes_blossom};

use slot::{Node, State, Vertex};
use table::{Table, field};

pub fn is_no_vertex(v: Vertex) -> bool
    ensures { result ≡ is_no_vertex v.0 }
{
    v.is_none()
}

// 3 at one side of a request: its node, of which this state is read, or the vertex that it touches.
pub fn is_no_side(seen: State, v: Vertex) -> bool
    ensures { result ≡ (not (is_present seen) || is_no_vertex v.0) }
{
    !seen.is_present() || is_no_vertex(v)
}

// Whether a node has a parent or a child.
fn in_tree(t: &Table, n: Node) -> bool
    ensures { result ≡ in_tree (at (table_of t.now) n.0) }
{
    let s = table::get(t, n);
    !s.parent.is_none() || !s.first_child.is_none()
}

// The same as the checks read it: a node that is still to be loaded is in no tree.
fn seen_in_tree(t: &Table, n: Node) -> bool
    ensures { result ≡ in_tree (seen (table_of t.now) n.0) }
{
    (field::is_blossom(t, n) || field::has_node(t, n)) && in_tree(t, n)
}

// 8: a blossom is to be made, and no slot is left.
pub fn makes_blossom(t: &Table, x: Node, y: Node) -> bool
    ensures { result ≡ makes_blossom (table_of t.now) x.0 y.0 }
{
    seen_in_tree(t, x) && seen_in_tree(t, y) && crate::trees::same_tree(t, x, y)
}

pub fn lacks_blossom_slot(t: &Table) -> bool
    ensures { result ≡ lacks_blossom_slot (table_of t.now) }
{
    table::counts::blossom_end(t) == 256
}
