// What is wrong at one side of a request.
use refusal::Refusal;
use request_judging::{checks, nodes, states};
use slot::{Node, Vertex};
use table::{Table, climb, counts};
use text::Reason;

// A named node, and what it is touched by.
#[derive(Clone, Copy)]
pub struct Named {
    pub node: Node,
    pub touch: Node,
    pub vertex: Vertex,
}

impl Named {
    // 3, 4 and 6 are given for one side.
    pub fn why(self, t: &Table, refusal: Refusal) -> Option<Reason> {
        match refusal {
            Refusal::NoSuchNode => Some(self.no_such(t)),
            Refusal::NotOuter => Some(self.not_outer(t)),
            Refusal::TouchOutside => Some(self.touch_outside(t)),
            _ => None,
        }
    }

    // The node, or the vertex that it touches; where neither, the virtual vertex.
    fn no_such(self, t: &Table) -> Reason {
        let node = self.node;
        if 256 <= node.0 {
            Reason::PastTheTable(node)
        } else if states::is_no_node(nodes::seen_state(t, node)) {
            Reason::EmptyBlossomSlot(node)
        } else if checks::is_no_vertex(self.vertex) {
            Reason::NoVertex(node)
        } else {
            Reason::NoVirtualVertex
        }
    }

    fn not_outer(self, t: &Table) -> Reason {
        Reason::NodeInside(self.node, climb::get_outer_blossom(t, self.node))
    }

    fn touch_outside(self, t: &Table) -> Reason {
        let Named { node, touch, .. } = self;
        let begin = counts::begin(t);
        if begin <= touch.0 {
            return Reason::TouchNoDefect { touch, node, begin };
        }
        Reason::TouchOutside { touch, node }
    }
}
