// The requests with many fields.
ghost use Rattle.record.specs.declared.request.Request.TheVariants as Q;
ghost use Rattle.record.specs.Records.{request_bytes};
ghost use Rattle.record_fields.specs.Outputs.{Wrote};

use record::{Conflict, Kind, VirtualConflict};
use record_fields::Output;

#[tactic(auto, using(record_fields::proofs::Halves::halves), unfolding(record::specs::Records::request_bytes))]
pub fn conflict(out: &mut Output, conflict: Conflict)
    ensures { Wrote (request_bytes (Q.Conflict conflict)) out.old out.new }
{
    out.put(
        Kind::Conflict,
        [
            conflict.node_1.0,
            conflict.node_2.0,
            conflict.touch_1.0,
            conflict.touch_2.0,
            conflict.vertex_1.low_word(),
            conflict.vertex_1.high_word(),
            conflict.vertex_2.low_word(),
            conflict.vertex_2.high_word(),
        ],
    );
}

#[tactic(auto, using(record_fields::proofs::Halves::halves), unfolding(record::specs::Records::request_bytes))]
pub fn virtual_conflict(out: &mut Output, conflict: VirtualConflict)
    ensures { Wrote (request_bytes (Q.VirtualConflict conflict)) out.old out.new }
{
    out.put(
        Kind::VirtualConflict,
        [
            conflict.node.0,
            conflict.touch.0,
            conflict.vertex.low_word(),
            conflict.vertex.high_word(),
            conflict.virtual_vertex.low_word(),
            conflict.virtual_vertex.high_word(),
        ],
    );
}
