// The ring of a new blossom. 01: it "runs meeting node, down to node_2, node_1, and up again; links on node_2's side are turned
// round, node_2's link being the conflict's."
ghost use Rattle.std.specs.Prelude.{◌≡◌};
ghost use Rattle.slot.specs.Slot.{link_of};
ghost use Rattle.table.specs.Words.{table_of};
ghost use Rattle.rules.specs.Blossom.{ring_up, ring_down, ringed};

use crate::Ring;
use slot::{Node, Slot, State};
use table::layout::SLOTS;
use table::{Table, storing};

impl Ring {
    // node_1's side, from x on: each goes on to its parent, up to the meeting node, by its own link.
    #[tactic(auto, using(crate::proofs::Rings::ups))]
    fn ring_up(self, t: &mut Table)
        ensures { table_of t.new ≡ ring_up 256 self.blossom.0 self.meeting.0 self.x.0 (table_of t.old) }
    {
        let mut here = self.x;
        for _ in 0..SLOTS {
            if here == self.meeting {
                return;
            }
            let s = table::get(t, here);
            storing::store(
                t,
                here,
                Slot {
                    state: State::Inner,
                    parent: self.blossom,
                    first_child: Node::NONE,
                    sibling: s.parent,
                    ..s
                },
            );
            here = s.parent;
        }
    }

    // node_2's side, from y on, and the meeting node: each goes on to the node passed just before, by that node's link turned round.
    // The first goes on to x.
    #[tactic(auto, using(crate::proofs::Rings::downs))]
    fn ring_down(self, t: &mut Table)
        ensures { table_of t.new ≡ ring_down 256 self.blossom.0 self.meeting.0 self.x.0 (link_of self.link) self.y.0 (table_of t.old) }
    {
        let mut after = self.x;
        let mut after_link = self.link;
        let mut here = self.y;
        for _ in 0..SLOTS {
            let s = table::get(t, here);
            storing::store(
                t,
                here,
                Slot {
                    state: State::Inner,
                    parent: self.blossom,
                    first_child: Node::NONE,
                    sibling: after,
                    link: after_link.mirrored(),
                    ..s
                },
            );
            if here == self.meeting {
                return;
            }
            after = here;
            after_link = s.link;
            here = s.parent;
        }
    }

    #[tactic(auto, unfolding(rules::specs::Blossom::ringed))]
    pub fn connect_ring(self, t: &mut Table)
        ensures { table_of t.new ≡ ringed self.blossom.0 self.meeting.0 self.x.0 self.y.0 (link_of self.link) (table_of t.old) }
    {
        self.ring_up(t);
        self.ring_down(t);
    }
}
