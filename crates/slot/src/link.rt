// The link that a node stores: which defects touch, and through which vertices, as the node itself sees it.
ghost use Rattle.std.specs.Prelude.{◌≡◌};
ghost use Rattle.slot.specs.Slot.{link_of, mirror, no_link};

use crate::number::{Node, Vertex};

#[derive(Clone, Copy, PartialEq, Eq)]
pub struct Link {
    pub touch: Node,
    pub through: Vertex,
    pub peer_touch: Node,
    pub peer_through: Vertex,
}

impl Link {
    pub fn none() -> Link
        ensures { link_of result ≡ no_link }
    {
        Link {
            touch: Node::NONE,
            through: Vertex::NONE,
            peer_touch: Node::NONE,
            peer_through: Vertex::NONE,
        }
    }

    // The same link seen from its other end.
    pub fn mirrored(self) -> Link
        ensures { link_of result ≡ mirror (link_of self) }
    {
        Link {
            touch: self.peer_touch,
            through: self.peer_through,
            peer_touch: self.touch,
            peer_through: self.through,
        }
    }
}
