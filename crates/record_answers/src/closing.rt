// The end of a request, and the entries of a listing.
ghost use Rattle.record.specs.declared.answer.Record.TheVariants as R;
ghost use Rattle.record.specs.Records.{answer_bytes};
ghost use Rattle.record_fields.specs.Outputs.{Wrote};

use record::{Kind, Pair, VirtualPair};
use record_fields::Output;
use refusal::Side;

// 0 or the refusal's number, and the side that it is for.
pub fn end(out: &mut Output, number: u16, side: Side)
    ensures { Wrote (answer_bytes (R.End number side)) out.old out.new }
{
    out.put(Kind::End, [number, u16::from(side)]);
}

#[tactic(auto, using(record_fields::proofs::Halves::halves), unfolding(record::specs::Records::answer_bytes))]
pub fn pair(out: &mut Output, pair: Pair)
    ensures { Wrote (answer_bytes (R.Pair pair)) out.old out.new }
{
    out.put(
        Kind::Pair,
        [
            pair.node.0,
            pair.peer.0,
            pair.through.low_word(),
            pair.through.high_word(),
            pair.peer_through.low_word(),
            pair.peer_through.high_word(),
        ],
    );
}

#[tactic(auto, using(record_fields::proofs::Halves::halves), unfolding(record::specs::Records::answer_bytes))]
pub fn virtual_pair(out: &mut Output, virtual_pair: VirtualPair)
    ensures { Wrote (answer_bytes (R.VirtualPair virtual_pair)) out.old out.new }
{
    out.put(
        Kind::VirtualPair,
        [
            virtual_pair.node.0,
            virtual_pair.through.low_word(),
            virtual_pair.through.high_word(),
            virtual_pair.virtual_vertex.low_word(),
            virtual_pair.virtual_vertex.high_word(),
        ],
    );
}
