// The ring of a blossom that is taken apart.
ghost use Rattle.std.specs.Prelude.{◌≡◌};
ghost use Rattle.slot.specs.Slot.{link_of};
ghost use Rattle.table.specs.Words.{table_of};
ghost use Rattle.rules.specs.Doing.{Does};
ghost use Rattle.rules.specs.Expansion.{steps_to, match_chain, ring_opened};

use record_fields::Output;
use slot::{Link, Node};
use table::layout::SLOTS;
use table::{Table, field};

// The ring and what it joins: P is the ring node that holds the blossom's touch, C the one that holds its child's peer touch; above,
// below and link are the blossom's parent, child and link.
#[derive(Clone, Copy)]
pub struct Opened {
    pub p: Node,
    pub c: Node,
    pub above: Node,
    pub below: Node,
    pub link: Link,
}

// From begin up to end, not with it, two by two: the first one's link, mirrored in the second. The nodes after a pair are read
// before the match, which replaces both siblings.
#[tactic(auto, using(crate::proofs::OpeningSteps::chains))]
fn expand_blossom_match_chain(t: &mut Table, out: &mut Output, end: Node, begin: Node)
    ensures { Does (match_chain 256 end.0 begin.0) t.old out.old t.new out.new }
{
    let mut here = begin;
    for _ in 0..SLOTS {
        if here == end {
            return;
        }
        let s = table::get(t, here);
        let next = field::sibling(t, s.sibling);
        request_matching::pairing::temporary_match(t, out, here, s.link, s.sibling);
        here = next;
    }
}

impl Opened {
    // 01: "d the number of siblings stepped from P to C".
    #[tactic(auto, using(crate::proofs::OpeningSteps::steps))]
    fn siblings_to(self, t: &Table) -> usize
        ensures { result ≡ steps_to 256 self.c.0 self.p.0 (table_of t.now) }
    {
        let mut here = self.p;
        for d in 0..SLOTS {
            if here == self.c {
                return d;
            }
            here = field::sibling(t, here);
        }
        SLOTS
    }

    // 01: "the nodes not attached, matched two by two in ring order; then those attached".
    #[tactic(auto, using(rules::proofs::Runs::runs, crate::proofs::OpeningSteps::openings))]
    pub fn open_ring(self, t: &mut Table, out: &mut Output)
        ensures { Does (ring_opened self.p.0 self.c.0 self.above.0 self.below.0 (link_of self.link)) t.old out.old t.new out.new }
    {
        let d = self.siblings_to(t);
        if d % 2 == 0 {
            expand_blossom_match_chain(t, out, self.p, field::sibling(t, self.c));
            self.attach_down(t, out);
        } else {
            expand_blossom_match_chain(t, out, self.c, field::sibling(t, self.p));
            self.attach_up(t, out);
        }
    }
}
