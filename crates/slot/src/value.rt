// What a slot holds.
ghost use Rattle.std.specs.Prelude.{◌≡◌};
ghost use Rattle.slot.specs.Slot.{slot_of, empty_slot, new_node};

use crate::link::Link;
use crate::number::Node;
use crate::state::State;

#[derive(Clone, Copy, PartialEq, Eq)]
pub struct Slot {
    pub state: State,
    pub parent: Node,
    pub first_child: Node,
    pub sibling: Node,
    // The first blossom child: where the blossom's ring begins.
    pub ring: Node,
    pub link: Link,
}

impl Slot {
    // 01: "an empty slot stores none throughout".
    pub fn empty() -> Slot
        ensures { slot_of result ≡ empty_slot }
    {
        Slot {
            state: State::Empty,
            parent: Node::NONE,
            first_child: Node::NONE,
            sibling: Node::NONE,
            ring: Node::NONE,
            link: Link::none(),
        }
    }

    // 01: "A new node is Grow with all else none."
    pub fn new_node() -> Slot
        ensures { slot_of result ≡ new_node }
    {
        let mut s = Slot::empty();
        s.state = State::Grow;
        s
    }
}
