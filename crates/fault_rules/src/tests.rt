// The walks that mark, with marks of all 256 slots and in lent bytes, on a ring of three and along four numbers.
use crate::s6_rings::{walk_ring, walk_ring_lent};
use slot::{Node, Slot, State};
use sound_walks::marking::{walk, walk_lent};
use table::layout::WORDS;
use table::{Marks, Table, marks, storing};

const BLOSSOM: Node = Node(200);

fn ring_of_three() -> Table {
    let mut t = [0; WORDS];
    for (n, next) in [(3, 7), (7, 5), (5, 3)] {
        let mut s = Slot::empty();
        s.state = State::Inner;
        s.parent = BLOSSOM;
        s.sibling = Node(next);
        storing::store(&mut t, Node(n), s);
    }
    t
}

fn next_up_to_13(n: Node) -> Node {
    if n.0 < 13 {
        return Node(n.0 + 1);
    }
    Node::NONE
}

#[test]
fn ring_is_marked_and_counted(rt: HostRuntime) {
    let t = ring_of_three();
    let mut seen = Marks::none();
    let mut lent = [0; 256];
    assert_eq!(rt; walk_ring(&t, &mut seen, BLOSSOM, Node(3)), Some(3));
    assert_eq!(rt; walk_ring_lent(&t, &mut lent, BLOSSOM, Node(3)), Some(3));
    for i in 0..256 {
        let on_ring = matches!(i, 3 | 5 | 7);
        assert_eq!(rt; seen.is_marked(Node(i)), on_ring, "slot {i}");
        assert_eq!(rt; marks::is_marked(&lent, Node(i)), on_ring, "slot {i}");
    }
}

#[test]
fn node_of_another_blossom_ends_the_ring(rt: HostRuntime) {
    let mut t = ring_of_three();
    storing::store(&mut t, Node(5), Slot::new_node());
    let mut seen = Marks::none();
    let mut lent = [0; 256];
    assert_eq!(rt; walk_ring(&t, &mut seen, BLOSSOM, Node(3)), None);
    assert_eq!(rt; walk_ring_lent(&t, &mut lent, BLOSSOM, Node(3)), None);
    assert!(rt; seen.is_marked(Node(7)) && !seen.is_marked(Node(5)));
}

#[test]
fn walk_is_counted_to_its_end(rt: HostRuntime) {
    let mut seen = Marks::none();
    let mut lent = [0; 12];
    assert_eq!(rt;
        walk(&mut seen, Node(10), next_up_to_13, |n| n.0 < 14),
        Some(4)
    );
    assert_eq!(rt;
        walk_lent(&mut lent, Node(10), next_up_to_13, |n| n.0 < 14),
        Some(4)
    );
    assert!(rt; seen.is_marked(Node(13)) && !seen.is_marked(Node(14)));
    assert!(rt; marks::is_marked(&lent, Node(11)) && !marks::is_marked(&lent, Node(12)));
    assert_eq!(rt;
        walk(&mut seen, Node(10), next_up_to_13, |n| n.0 < 13),
        None
    );
    assert_eq!(rt; walk(&mut seen, Node(10), |n| n, |_| true), None);
}
