// Whom a defect is paired with (ticket 3 of 02), and that answer told in plain numbers.
ghost use Rattle.outcome.specs.PartnerInNumbers.{ToldPartner};

use record::{Pair, VirtualPair};
use refusal::Refusal;
use slot::{Node, Vertex};

// The listing's entry that names the defect, as the defect sees it: `node` is the defect asked about.
#[derive(Clone, Copy)]
pub enum Partner {
    Defect(Pair),
    Virtual(VirtualPair),
}

// Gives 0 or the refusal's number. The kind is 0 nobody, 1 a defect, 2 a virtual vertex, which stands in `peer_through`; what does not
// apply is none.
// Kept: the call for C lends places for the numbers (primal_c).
pub fn tell(
    answer: Result<Option<Partner>, Refusal>,
    kind: &mut u16,
    partner: &mut u16,
    through: &mut u32,
    peer_through: &mut u32,
) -> u16
    ensures { ToldPartner answer result kind.new partner.new through.new peer_through.new }
{
    *kind = 0;
    *partner = Node::NONE.0;
    *through = Vertex::NONE.0;
    *peer_through = Vertex::NONE.0;
    match answer {
        Ok(None) => 0,
        Ok(Some(Partner::Defect(pair))) => {
            *kind = 1;
            *partner = pair.peer.0;
            *through = pair.through.0;
            *peer_through = pair.peer_through.0;
            0
        }
        Ok(Some(Partner::Virtual(pair))) => {
            *kind = 2;
            *through = pair.through.0;
            *peer_through = pair.virtual_vertex.0;
            0
        }
        Err(refusal) => u16::from(refusal),
    }
}
