// Where the ways up from two nodes meet. Two ends take a step each by turns and leave a mark at every node; the one that finds a mark
// there already is at the meeting node. Where both come to their roots first, there are two trees. A number past the last slot is taken
// for the end of a way up: on a sound table none is the only such number. Each climb is bounded, so it ends on any table.
ghost use Rattle.std.specs.Prelude.{◌≡◌, ℕ, Bool, eqb};
ghost use Rattle.table.specs.Words.{table_of};
ghost use Rattle.table.specs.Marks.{marked};
ghost use Rattle.requests.specs.Meeting.{found, IsTest, first_above, in_turn, met_in_turn};

use slot::Node;
use std::mem;
use table::{Marks, Table, field};

// The first node above n of which the test holds; None if the way up ends before.
#[tactic(auto, using(crate::proofs::MeetingSteps::steps_up))]
fn climb_to<F: Fn(Node) -> bool>(t: &Table, n: Node, test: F) -> Option<Node>
    requires { F.IsAlwaysCallable test }
    ensures { (holds : ℕ → Bool) → IsTest (F.post test) holds → found result ≡ first_above 256 (table_of t.now) holds n.0 }
{
    let mut here = n;
    for _ in 0..256usize {
        let above = field::parent(t, here);
        if 256 <= above.0 {
            return None;
        }
        if test(above) {
            return Some(above);
        }
        here = above;
    }
    None
}

// Both ends stand on marked nodes; the one that waits takes the next turn.
#[tactic(auto, using(crate::proofs::MeetingSteps::turns))]
fn climb_in_turn(t: &Table, passed: &mut Marks, a: Node, b: Node) -> Option<Node>
    ensures { found result ≡ in_turn 512 (table_of t.now) passed.old a.0 b.0 }
{
    let mut here = a;
    let mut waiting = b;
    let mut turns: usize = 0;
    // Kept: 01 asks for a loop that climbs both paths and yields the meeting node by break.
    let meeting = loop {
        if 512 <= turns {
            break None;
        }
        let higher = field::parent(t, here);
        if 256 <= higher.0 {
            break climb_to(t, waiting, |n| passed.is_marked(n));
        }
        if passed.is_marked(higher) {
            break Some(higher);
        }
        passed.mark(higher);
        here = mem::replace(&mut waiting, higher);
        turns += 1;
    };
    meeting
}

// 01: "The meeting node is the first node that both upward paths share." None where there are two trees. So it is for two different
// outer nodes of a sound table (`MeetingNode`). A root passes no node but itself, so where one of the two is a root nothing is marked.
#[tactic(auto, using(crate::proofs::MeetingSteps::starts))]
pub fn find_lowest_common_ancestor(t: &Table, a: Node, b: Node) -> Option<Node>
    ensures { found result ≡ met_in_turn (table_of t.now) a.0 b.0 }
{
    let above_a = field::parent(t, a);
    if 256 <= above_a.0 {
        return climb_to(t, b, |n| n == a);
    }
    let above_b = field::parent(t, b);
    if 256 <= above_b.0 {
        return climb_to(t, a, |n| n == b);
    }
    let mut passed = Marks::none();
    passed.mark(a);
    passed.mark(b);
    climb_in_turn(t, &mut passed, a, b)
}
