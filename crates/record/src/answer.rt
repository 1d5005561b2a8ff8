// Answers: commands, the end of a request, and the entries of a listing.
ghost use Rattle.std.specs.Prelude.{◌≡◌};
ghost use Rattle.record.specs.Records.{speed_number};

use refusal::Side;
use slot::{Link, Node, Vertex};

#[derive(Clone, Copy, PartialEq, Eq)]
pub enum Speed {
    Stay,
    Grow,
    Shrink,
}

// 01: "speed (node, [speed])", "0 Stay, 1 Grow, 2 Shrink".
impl From<Speed> for u16 {
    ghost from_gives = { λ speed number. number ≡ speed_number speed };

    fn from(speed: Speed) -> u16 {
        match speed {
            Speed::Stay => 0,
            Speed::Grow => 1,
            Speed::Shrink => 2,
        }
    }
}

#[derive(Clone, Copy, PartialEq, Eq)]
pub struct Pair {
    pub node: Node,
    pub peer: Node,
    pub through: Vertex,
    pub peer_through: Vertex,
}

#[derive(Clone, Copy, PartialEq, Eq)]
pub struct VirtualPair {
    pub node: Node,
    pub through: Vertex,
    pub virtual_vertex: Vertex,
}

// "Entries name touched defects, with through numbers": a node matched by this link, as the link has it.
impl From<Link> for Pair {
    ghost from_gives = { λ link pair. pair ≡ record { node = link.touch; peer = link.peer_touch; through = link.through; peer_through = link.peer_through } };

    fn from(link: Link) -> Pair {
        Pair {
            node: link.touch,
            peer: link.peer_touch,
            through: link.through,
            peer_through: link.peer_through,
        }
    }
}

impl From<Link> for VirtualPair {
    ghost from_gives = { λ link pair. pair ≡ record { node = link.touch; through = link.through; virtual_vertex = link.peer_through } };

    fn from(link: Link) -> VirtualPair {
        VirtualPair {
            node: link.touch,
            through: link.through,
            virtual_vertex: link.peer_through,
        }
    }
}

// The first three are the commands. An end carries 0 or the refusal's number, and the side that the refusal is for.
// Kept: the end's number is any number, since a caller may have any written (`write_answer`, docs/PROMISES.md).
#[derive(Clone, Copy, PartialEq, Eq)]
pub enum Record {
    Speed(Node, Speed),
    Create(Node),
    Expand(Node),
    End(u16, Side),
    Pair(Pair),
    VirtualPair(VirtualPair),
}
