// Rings, and numbers for what is inside blossoms (S6, S8), from each outer blossom down: a defect gets the next number; a blossom gets a
// stretch, which begins with the next number. The touches are then judged without a climb.
//
// Each function gives the next number, and none where a ring is none. No node is entered twice, so the work is linear for any words; what
// no outer blossom holds, as blossoms whose parents form a circle, gets no number.
ghost use Rattle.std.specs.Prelude.{◌≡◌, ◌≢◌, ◌-◌, IfSome, unwrap_or};
ghost use Rattle.table.specs.Words.{table_of};
ghost use Rattle.sound_walks.specs.Numbers.{numbers_of, is_next, is_odd_ring, ring_numbered, blossom_numbered, node_numbered, outers_numbered};

use slot::Node;
use sound_slots::stretches::Stretches;
use table::{Table, field};

// A node of b's ring that has no number yet.
fn is_next(t: &Table, s: &Stretches, b: Node, n: Node) -> bool
    ensures { result ≡ is_next (table_of t.now) s.now.lo b.0 n.0 }
{
    field::is_inner(t, n) && field::parent(t, n) == b && !s.is_numbered(n)
}

// Odd, at least 3.
pub fn is_odd_ring(count: u32) -> bool
    ensures { result ≡ is_odd_ring count }
{
    count % 2 == 1 && 3 <= count
}

// The ring of b: its nodes and what is inside them, from the first along siblings until it is the next again.
#[cycle(number_blossom_number_node_number_ring)]
fn number_ring(
    t: &Table,
    s: &mut Stretches,
    b: Node,
    first: Node,
    k: u16,
    budget: u32,
) -> Option<u16>
    ensures numbers { numbers_of s.new.lo s.new.hi (unwrap_or result 0) ≡ ring_numbered budget (table_of t.now) b.0 first.0 (numbers_of s.old.lo s.old.hi k) }
    ensures some { IfSome result (λ next. next ≢ 0) }
{
    let mut here = first;
    let mut next = k;
    for count in 0..budget {
        if !is_next(t, s, b, here) {
            return None;
        }
        let after = field::sibling(t, here);
        next = number_node(t, s, here, next, budget - count - 1)?;
        if after == first {
            return if is_odd_ring(count + 1) {
                Some(next)
            } else {
                None
            };
        }
        here = after;
    }
    None
}

// A blossom and what is inside it.
#[cycle(number_blossom_number_node_number_ring)]
#[tactic(auto, unfolding(crate::specs::Numbers::blossom_by))]
fn number_blossom(t: &Table, s: &mut Stretches, b: Node, k: u16, left: u32) -> Option<u16>
    ensures numbers { numbers_of s.new.lo s.new.hi (unwrap_or result 0) ≡ blossom_numbered left (table_of t.now) b.0 (numbers_of s.old.lo s.old.hi k) }
    ensures some { IfSome result (λ next. next ≢ 0) }
{
    s.lo.set(b, k);
    let first = field::get_first_blossom_child(t, b);
    let end = number_ring(t, s, b, first, k, left);
    s.hi.set(b, end.unwrap_or(0));
    end
}

// A node of a ring and what is inside it.
#[cycle(number_blossom_number_node_number_ring)]
#[tactic(auto, unfolding(crate::specs::Numbers::node_by))]
fn number_node(t: &Table, s: &mut Stretches, n: Node, k: u16, left: u32) -> Option<u16>
    ensures numbers { numbers_of s.new.lo s.new.hi (unwrap_or result 0) ≡ node_numbered left (table_of t.now) n.0 (numbers_of s.old.lo s.old.hi k) }
    ensures some { IfSome result (λ next. next ≢ 0) }
{
    if field::is_blossom(t, n) {
        return number_blossom(t, s, n, k, left);
    }
    s.lo.set(n, k);
    k.checked_add(1)
}

// The outer ones of the slots from one number to before another.
pub fn number_outers(t: &Table, s: &mut Stretches, from: u16, to: u16) -> Option<u16>
    ensures numbers { numbers_of s.new.lo s.new.hi (unwrap_or result 0) ≡ outers_numbered (table_of t.now) (to - from) from (numbers_of s.old.lo s.old.hi 1) }
    ensures some { IfSome result (λ next. next ≢ 0) }
{
    let mut k: u16 = 1;
    for i in from..to {
        if field::is_outer(t, Node(i)) {
            k = number_blossom(t, s, Node(i), k, 65536)?;
        }
    }
    Some(k)
}
