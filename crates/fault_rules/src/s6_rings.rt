// S6: the ring, at its blossom; that an inner node has a full link and no child, at the inner node.
ghost use Rattle.std.specs.Prelude.{◌≡◌, ◌≤◌, IfSome, unwrap_or};
ghost use Rattle.slot.specs.Number.{none};
ghost use Rattle.table.specs.Words.{table_of};
ghost use Rattle.rules.specs.Sound.{next_in_ring, is_inner_child, ring_holds, s6};
ghost use Rattle.sound_walks.specs.Pass.{all_from};
ghost use Rattle.sound_walks.specs.Marks.{walked_of, marking};
ghost use Rattle.fault_rules.specs.Walked.{is_ring_node, ring_listed, ring_fits, inner_fits};

use slot::Node;
use sound_slots::value;
use sound_walks::marking::{walk, walk_lent};
use sound_walks::numbers::is_odd_ring;
use table::{Marks, Table, field, marks};

// The node after n on the ring that begins with another; none where that is the first again.
// Kept: 65,535 for none, as the definition has it and the walk along a list takes it.
fn next_in_ring(t: &Table, first: Node, n: Node) -> Node
    ensures { result.0 ≡ next_in_ring (table_of t.now) first.0 n.0 }
{
    let after = field::sibling(t, n);
    if after == first { Node::NONE } else { after }
}

pub fn is_inner_child(t: &Table, b: Node, n: Node) -> bool
    ensures { result ≡ is_inner_child (table_of t.now) b.0 n.0 }
{
    field::is_inner(t, n) && field::parent(t, n) == b
}

// A node of b's ring, from which the ring goes on.
fn is_ring_node(t: &Table, b: Node, n: Node) -> bool
    ensures { result ≡ is_ring_node (table_of t.now) b.0 n.0 }
{
    !field::sibling(t, n).is_none() && is_inner_child(t, b, n)
}

// Around the ring: marks its nodes and counts them. None where it does not come back, or meets a node that is not b's.
pub fn walk_ring(t: &Table, seen: &mut Marks, b: Node, first: Node) -> Option<u16>
    ensures walked { walked_of (unwrap_or result none) seen.new ≡ marking 256 (next_in_ring (table_of t.now) first.0) (is_ring_node (table_of t.now) b.0) first.0 0 seen.old }
    ensures few { IfSome result (λ count. count ≤ 256) }
{
    let after = |n: Node| next_in_ring(t, first, n);
    let on_ring = |n: Node| is_ring_node(t, b, n);
    walk(seen, first, after, on_ring)
}

// The same with the marks in lent bytes of any length.
// Kept: beside walk_ring, as walk_lent is beside walk.
pub fn walk_ring_lent(t: &Table, seen: &mut [u8], b: Node, first: Node) -> Option<u16>
    ensures walked { walked_of (unwrap_or result none) seen.new ≡ marking 256 (next_in_ring (table_of t.now) first.0) (is_ring_node (table_of t.now) b.0) first.0 0 seen.old }
    ensures few { IfSome result (λ count. count ≤ 256) }
{
    walk_lent(
        seen,
        first,
        |n| next_in_ring(t, first, n),
        |n| is_ring_node(t, b, n),
    )
}

fn is_on_ring(t: &Table, seen: &[u8], b: Node, n: Node) -> bool
    ensures { result ≡ ring_listed (table_of t.now) seen.now b.0 n.0 }
{
    !is_inner_child(t, b, n) || marks::is_marked(seen, n)
}

fn all_on_ring(t: &Table, seen: &[u8], b: Node) -> bool
    ensures { result ≡ all_from (ring_listed (table_of t.now) seen.now b.0) 256 0 }
{
    (0..256).all(|i| is_on_ring(t, seen, b, Node(i)))
}

fn ring_holds(t: &Table, b: Node) -> bool
    ensures { result ≡ ring_holds (table_of t.now) b.0 }
{
    let first = field::get_first_blossom_child(t, b);
    let mut seen = [0u8; 256];
    let Some(count) = walk_ring_lent(t, &mut seen, b, first) else {
        return false;
    };
    is_odd_ring(u32::from(count)) && all_on_ring(t, &seen, b)
}

#[tactic(auto, unfolding(crate::specs::Walked::ring_fits))]
pub fn ring_fits(t: &Table, n: Node) -> bool
    ensures { result ≡ ring_fits (table_of t.now) n.0 }
{
    !(field::is_blossom(t, n) && field::has_node(t, n)) || ring_holds(t, n)
}

fn inner_fits(t: &Table, n: Node) -> bool
    ensures { result ≡ inner_fits (table_of t.now) n.0 }
{
    let s = table::get(t, n);
    !s.state.is_inner() || (value::is_full(s.link) && s.first_child.is_none())
}

#[tactic(auto, unfolding(rules::specs::Sound::s6, crate::specs::Walked::ring_fits))]
pub fn holds(t: &Table, n: Node) -> bool
    ensures { result ≡ s6 (table_of t.now) n.0 }
{
    ring_fits(t, n) && inner_fits(t, n)
}
