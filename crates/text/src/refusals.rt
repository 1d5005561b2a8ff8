// Refusals in words that say which node or field, and what stands there.
use slot::Node;
use std::fmt;

// Why a request is refused: what stands at the nodes that it names.
#[derive(Clone, Copy)]
pub enum Reason {
    PastTheTable(Node),
    EmptyBlossomSlot(Node),
    EmptyDefectSlot(Node),
    NoVertex(Node),
    NoVirtualVertex,
    // Node, and the blossom around it.
    NodeInside(Node, Node),
    BlossomInside(Node, Node),
    BothNodes(Node),
    // Defects are below begin.
    TouchNoDefect { touch: Node, node: Node, begin: u16 },
    TouchOutside { touch: Node, node: Node },
    NodeShrinks(Node),
    NodeStays(Node),
    BothStay(Node, Node),
    BlossomStays(Node),
    BlossomGrows(Node),
    NoSlotLeft { defect_slots: u16, blossoms: u16 },
    IsDefect(Node),
    NoDefect { node: Node, begin: u16 },
}

impl fmt::Display for Reason {
    fn fmt<W: fmt::Write>(&self, f: &mut fmt::Formatter<W>) -> fmt::Result {
        match *self {
            Reason::PastTheTable(node) => write!(f, "node {node} is past the last slot, 255"),
            Reason::EmptyBlossomSlot(node) => write!(f, "blossom slot {node} is empty"),
            Reason::EmptyDefectSlot(node) => write!(f, "defect slot {node} is empty"),
            Reason::NoVertex(node) => write!(f, "the vertex at node {node} is none"),
            Reason::NoVirtualVertex => f.write_str("the virtual vertex is none"),
            Reason::NodeInside(node, blossom) => {
                write!(f, "node {node} is inside blossom {blossom}")
            }
            Reason::BlossomInside(inner, outer) => {
                write!(f, "blossom {inner} is inside blossom {outer}")
            }
            Reason::BothNodes(node) => write!(f, "both nodes are {node}"),
            Reason::TouchNoDefect { touch, node, begin } => write!(
                f,
                "touch {touch} of node {node} is no defect: those are below {begin}"
            ),
            Reason::TouchOutside { touch, node } => {
                write!(f, "touch {touch} is not inside node {node}")
            }
            Reason::NodeShrinks(node) => write!(f, "node {node} shrinks"),
            Reason::NodeStays(node) => write!(f, "node {node} stays"),
            Reason::BothStay(first, second) => write!(f, "nodes {first} and {second} stay"),
            Reason::BlossomStays(node) => write!(f, "blossom {node} stays"),
            Reason::BlossomGrows(node) => write!(f, "blossom {node} grows"),
            Reason::NoSlotLeft {
                defect_slots,
                blossoms,
            } => write!(
                f,
                "no slot is left for a blossom: {defect_slots} defect slots, and {blossoms} blossoms made"
            ),
            Reason::IsDefect(node) => write!(f, "node {node} is a defect"),
            Reason::NoDefect { node, begin } => {
                write!(f, "node {node} is no defect: those are below {begin}")
            }
        }
    }
}
