// Requests from plain numbers, and answers told in them, as a caller in another language passes them.
ghost use Rattle.std.specs.Prelude.{◌≡◌, [], ◌∷◌};
ghost use Rattle.record.specs.Records.{conflict_from, virtual_from, expansion_from};
ghost use Rattle.refusal.specs.Refusal.{answer_side};
ghost use Rattle.outcome.specs.Told.{Told};

use record::{Conflict, Expansion, VirtualConflict};
use refusal::Answer;
use slot::{Node, Vertex};

pub fn conflict(
    node_1: u16,
    node_2: u16,
    touch_1: u16,
    touch_2: u16,
    vertex_1: u32,
    vertex_2: u32,
) -> Conflict
    ensures { result ≡ conflict_from (node_1 ∷ node_2 ∷ touch_1 ∷ touch_2 ∷ vertex_1 ∷ vertex_2 ∷ []) }
{
    Conflict {
        node_1: Node(node_1),
        node_2: Node(node_2),
        touch_1: Node(touch_1),
        touch_2: Node(touch_2),
        vertex_1: Vertex(vertex_1),
        vertex_2: Vertex(vertex_2),
    }
}

pub fn virtual_conflict(node: u16, touch: u16, vertex: u32, virtual_vertex: u32) -> VirtualConflict
    ensures { result ≡ virtual_from (node ∷ touch ∷ vertex ∷ virtual_vertex ∷ []) }
{
    VirtualConflict {
        node: Node(node),
        touch: Node(touch),
        vertex: Vertex(vertex),
        virtual_vertex: Vertex(virtual_vertex),
    }
}

pub fn expansion(node: u16) -> Expansion
    ensures { result ≡ expansion_from (node ∷ []) }
{
    Expansion { node: Node(node) }
}

// An answer in numbers: 0 and the bytes written, or the refusal's number and no bytes.
// Kept: the calls for C lend places for the numbers (primal_c).
pub fn tell(answer: Answer, written: &mut usize) -> u16
    ensures { Told answer result written.new }
{
    *written = refusal::answer_written(answer);
    refusal::answer_number(answer)
}

// Its side: 0 where it was done or the refusal names none.
// Kept: as tell.
pub fn tell_side(answer: Answer, side: &mut u16)
    ensures { side.new ≡ answer_side answer }
{
    *side = refusal::answer_side(answer);
}
