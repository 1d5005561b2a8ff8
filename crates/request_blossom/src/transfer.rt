// The children off the two paths become the blossom's.
ghost use Rattle.std.specs.Prelude.{◌≡◌, ◌||◌, eqb};
ghost use Rattle.table.specs.Words.{table_of};
ghost use Rattle.rules.specs.Act.{choose, same, alter};
ghost use Rattle.rules.specs.Slots.{with_parent, with_sibling};
ghost use Rattle.rules.specs.Blossom.{adopted, moved, moved_up_to, last_below, gathered};

use crate::Ring;
use slot::Node;
use table::layout::SLOTS;
use table::storing::Pointer;
use table::{Table, field, storing};

// The place in a child list: whose child n is, and which child is next.
fn set_list_place(t: &mut Table, n: Node, parent: Node, sibling: Node)
    ensures { table_of t.new ≡ alter n.0 (λ s. with_sibling sibling.0 (with_parent parent.0 s)) (table_of t.old) }
{
    storing::store_pointer(t, n, Pointer::Parent, parent);
    storing::store_pointer(t, n, Pointer::Sibling, sibling);
}

// c goes to the front of b's child list.
#[tactic(auto, unfolding(rules::specs::Blossom::adopted, rules::specs::Act::alter))]
fn transfer_to(t: &mut Table, b: Node, c: Node)
    ensures { table_of t.new ≡ adopted b.0 c.0 (table_of t.old) }
{
    let first = field::first_child(t, b);
    storing::store_pointer(t, b, Pointer::FirstChild, c);
    set_list_place(t, c, b, first);
}

// The same, but for x and y, which are on a path.
#[tactic(auto, using(crate::proofs::Lists::passes))]
fn transfer_unless_on_path(t: &mut Table, b: Node, x: Node, y: Node, c: Node)
    ensures { table_of t.new ≡ choose (eqb c.0 x.0 || eqb c.0 y.0) same (adopted b.0 c.0) (table_of t.old) }
{
    if c != x && c != y {
        transfer_to(t, b, c);
    }
}

// 01: the list from c on "move[s] to the front of its list one by one". The next sibling is read before the move, which replaces it.
#[tactic(auto, using(crate::proofs::Lists::moves))]
fn transfer_children_except_for_two(t: &mut Table, b: Node, x: Node, y: Node, c: Node)
    ensures { table_of t.new ≡ moved 256 b.0 x.0 y.0 c.0 (table_of t.old) }
{
    let mut here = c;
    for _ in 0..SLOTS {
        if here.is_none() {
            return;
        }
        let next = field::sibling(t, here);
        transfer_unless_on_path(t, b, x, y, here);
        here = next;
    }
}

impl Ring {
    // The children of the path from n up to the meeting node, not with it. Where it is not taken into its caller it has the ring lent in
    // memory, and the nested tape takes 13 instructions a request more.
    #[inline(always)]
    #[tactic(auto, using(crate::proofs::Lists::paths))]
    fn transfer_path_children(self, t: &mut Table, n: Node)
        ensures { table_of t.new ≡ moved_up_to 256 self.blossom.0 self.meeting.0 n.0 n.0 (table_of t.old) }
    {
        let mut below = n;
        let mut here = n;
        for _ in 0..SLOTS {
            if here == self.meeting {
                return;
            }
            let s = table::get(t, here);
            transfer_children_except_for_two(t, self.blossom, below, below, s.first_child);
            below = here;
            here = s.parent;
        }
    }

    // The last node before the meeting node on the way up from n; n itself where that is the meeting node.
    #[tactic(auto, using(crate::proofs::Lists::lasts))]
    fn last_below(self, t: &Table, n: Node) -> Node
        ensures { result.0 ≡ last_below 256 self.meeting.0 n.0 n.0 (table_of t.now) }
    {
        let mut below = n;
        let mut here = n;
        for _ in 0..SLOTS {
            if here == self.meeting {
                break;
            }
            below = here;
            here = field::parent(t, here);
        }
        below
    }

    // 01: "from node_1's path upward, then node_2's, then the meeting node".
    #[tactic(auto, unfolding(rules::specs::Blossom::gathered))]
    pub fn transfer_two_paths(self, t: &mut Table)
        ensures { table_of t.new ≡ gathered self.blossom.0 self.meeting.0 self.x.0 self.y.0 (table_of t.old) }
    {
        let last_x = self.last_below(t, self.x);
        let last_y = self.last_below(t, self.y);
        self.transfer_path_children(t, self.x);
        self.transfer_path_children(t, self.y);
        let first = field::first_child(t, self.meeting);
        transfer_children_except_for_two(t, self.blossom, last_x, last_y, first);
    }
}
