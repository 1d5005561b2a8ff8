// Making a blossom. Each walk is bounded, so it ends on any table.
#![tactic(auto)]

pub mod list;
pub mod ringing;
pub mod transfer;

ghost use Rattle.std.specs.Prelude.{◌≡◌};
ghost use Rattle.slot.specs.Slot.{link_of};
ghost use Rattle.table.specs.Words.{table_of};
ghost use Rattle.rules.specs.Doing.{Does};
ghost use Rattle.rules.specs.Blossom.{blossom_placed, create_blossom};

use record_answers::commands;
use record_fields::Output;
use slot::{Link, Node, Slot, State};
use table::{Table, counts, storing};

// The ring of a new blossom: the ways from x and from y to the node where they meet, and a link between x and y, as x sees it.
#[derive(Clone, Copy)]
pub struct Ring {
    pub blossom: Node,
    pub meeting: Node,
    pub x: Node,
    pub y: Node,
    pub link: Link,
}

impl Ring {
    // 01: the new blossom is "Grow, and [takes] the meeting node's parent, list place and link"; its ring begins at the meeting node.
    #[tactic(auto, using(crate::proofs::Placed::placed))]
    fn place_blossom(self, t: &mut Table)
        ensures { table_of t.new ≡ blossom_placed self.blossom.0 self.meeting.0 (table_of t.old) }
    {
        let s = table::get(t, self.meeting);
        let parent = s.parent;
        storing::store(
            t,
            self.blossom,
            Slot {
                state: State::Grow,
                first_child: Node::NONE,
                ring: self.meeting,
                ..s
            },
        );
        if !parent.is_none() {
            list::alternating_tree_replace_child_with(t, parent, self.meeting, self.blossom);
        }
    }

    // So many blossoms are then given out.
    #[tactic(auto, using(rules::proofs::Runs::runs), unfolding(rules::specs::Blossom::create_blossom))]
    pub fn create_blossom(self, t: &mut Table, out: &mut Output, given: u16)
        ensures { Does (create_blossom self.blossom.0 given self.meeting.0 self.x.0 self.y.0 (link_of self.link)) t.old out.old t.new out.new }
    {
        counts::set_count_blossoms(t, given);
        self.place_blossom(t);
        self.transfer_two_paths(t);
        self.connect_ring(t);
        commands::create(out, self.blossom);
    }
}
