// Why a conflict was refused.
use crate::named::Named;
use record::Conflict;
use refusal::{Refusal, Refused, Side};
use request_judging::{nodes, states};
use table::{Table, counts};
use text::Reason;

fn not_growing(t: &Table, c: Conflict) -> Reason {
    for node in [c.node_1, c.node_2] {
        if states::is_minus(nodes::seen_state(t, node)) {
            return Reason::NodeShrinks(node);
        }
    }
    Reason::BothStay(c.node_1, c.node_2)
}

fn side_of(c: Conflict, side: Side) -> Named {
    match side {
        Side::First => Named {
            node: c.node_1,
            touch: c.touch_1,
            vertex: c.vertex_1,
        },
        _ => Named {
            node: c.node_2,
            touch: c.touch_2,
            vertex: c.vertex_2,
        },
    }
}

pub fn why(t: &Table, c: Conflict, refused: Refused) -> Option<Reason> {
    match refused.refusal {
        Refusal::SameNode => Some(Reason::BothNodes(c.node_1)),
        Refusal::NotGrowing => Some(not_growing(t, c)),
        Refusal::NoBlossomSlot => Some(Reason::NoSlotLeft {
            defect_slots: counts::begin(t),
            blossoms: counts::count_blossoms(t),
        }),
        refusal => side_of(c, refused.side).why(t, refusal),
    }
}
