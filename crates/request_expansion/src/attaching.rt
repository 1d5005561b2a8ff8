// The ring nodes that join the tree in the place of a blossom taken apart.
ghost use Rattle.std.specs.Prelude.{◌≡◌, not, false};
ghost use Rattle.slot.specs.Slot.{link_of};
ghost use Rattle.rules.specs.Doing.{Does};
ghost use Rattle.rules.specs.Expansion.{state_by, speed_by, attach, attach_down, attach_up};
ghost use Rattle.request_expansion.specs.Signs.{grows};

use crate::opening::Opened;
use record::Speed;
use record_answers::commands;
use record_fields::Output;
use slot::{Link, Node, Slot, State};
use table::layout::SLOTS;
use table::{Table, storing};

// A tree node's sign: + nodes grow, − nodes shrink.
#[derive(Clone, Copy)]
pub enum Sign {
    Plus,
    Minus,
}

impl Sign {
    fn state(self) -> State
        ensures { result ≡ state_by (grows self) }
    {
        match self {
            Sign::Plus => State::Grow,
            Sign::Minus => State::Shrink,
        }
    }

    fn speed(self) -> Speed
        ensures { result ≡ speed_by (grows self) }
    {
        match self {
            Sign::Plus => Speed::Grow,
            Sign::Minus => Speed::Shrink,
        }
    }

    fn turned(self) -> Sign
        ensures { grows result ≡ not (grows self) }
    {
        match self {
            Sign::Plus => Sign::Minus,
            Sign::Minus => Sign::Plus,
        }
    }
}

#[tactic(auto, using(rules::proofs::Runs::runs), unfolding(rules::specs::Expansion::attach, rules::specs::Act::alter))]
fn attach_node(
    t: &mut Table,
    out: &mut Output,
    n: Node,
    sign: Sign,
    parent: Node,
    child: Node,
    link: Link,
)
    ensures { Does (attach n.0 (grows sign) parent.0 child.0 (link_of link)) t.old out.old t.new out.new }
{
    commands::speed(out, n, sign.speed());
    let ring = table::get(t, n).ring;
    storing::store(
        t,
        n,
        Slot {
            state: sign.state(),
            parent,
            first_child: child,
            sibling: Node::NONE,
            ring,
            link,
        },
    );
}

impl Opened {
    // d even. 01: "P up to C along the ring, set Shrink, Grow, .., Shrink from P": each has the node before it as parent, and that
    // node's ring link, seen from itself. C has the blossom's child below it.
    #[tactic(auto, using(crate::proofs::AttachingSteps::downs))]
    pub fn attach_down(self, t: &mut Table, out: &mut Output)
        ensures { Does (attach_down 256 self.c.0 self.below.0 false self.above.0 (link_of self.link) self.p.0) t.old out.old t.new out.new }
    {
        let mut here = self.p;
        let mut sign = Sign::Minus;
        let mut parent = self.above;
        let mut link = self.link;
        for _ in 0..SLOTS {
            let s = table::get(t, here);
            if here == self.c {
                attach_node(t, out, here, sign, parent, self.below, link);
                return;
            }
            attach_node(t, out, here, sign, parent, s.sibling, link);
            parent = here;
            link = s.link.mirrored();
            sign = sign.turned();
            here = s.sibling;
        }
    }

    // d odd. 01: "from C along the ring to P, set from C": each has the node after it as parent, by its own ring link. P has the
    // blossom's parent above it, by the blossom's link.
    #[tactic(auto, using(crate::proofs::AttachingSteps::ups))]
    pub fn attach_up(self, t: &mut Table, out: &mut Output)
        ensures { Does (attach_up 256 self.p.0 self.above.0 (link_of self.link) false self.below.0 self.c.0) t.old out.old t.new out.new }
    {
        let mut here = self.c;
        let mut sign = Sign::Minus;
        let mut child = self.below;
        for _ in 0..SLOTS {
            let s = table::get(t, here);
            if here == self.p {
                attach_node(t, out, here, sign, self.above, child, self.link);
                return;
            }
            attach_node(t, out, here, sign, s.sibling, child, s.link);
            child = here;
            sign = sign.turned();
            here = s.sibling;
        }
    }
}
