// Requests: what a tape asks for, and what reading a tape finds.
use refusal::Refusal;
use slot::{Node, Vertex};

#[derive(Clone, Copy, PartialEq, Eq)]
pub struct Conflict {
    pub node_1: Node,
    pub node_2: Node,
    pub touch_1: Node,
    pub touch_2: Node,
    pub vertex_1: Vertex,
    pub vertex_2: Vertex,
}

#[derive(Clone, Copy, PartialEq, Eq)]
pub struct VirtualConflict {
    pub node: Node,
    pub touch: Node,
    pub vertex: Vertex,
    pub virtual_vertex: Vertex,
}

#[derive(Clone, Copy, PartialEq, Eq)]
pub struct Expansion {
    pub node: Node,
}

#[derive(Clone, Copy, PartialEq, Eq)]
pub enum Request {
    Conflict(Conflict),
    VirtualConflict(VirtualConflict),
    Expansion(Expansion),
    Reset,
    List,
}

// What stands first on a tape: a request with the bytes that its record fills, or why there is none.
pub type Reading = Result<(Request, usize), Refusal>;
