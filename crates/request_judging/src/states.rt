// Tests of the state that the checks read of a named node (01, "Numbers given back").
ghost use Rattle.std.specs.Prelude.{◌≡◌, not};
ghost use Rattle.slot.specs.State.{is_present};
ghost use Rattle.rules.specs.Slots.{is_shrink};
ghost use Rattle.request_judging.specs.Seen.{none_growing};

use slot::State;

// 3: no slot, or an empty blossom slot.
pub fn is_no_node(seen: State) -> bool
    ensures { result ≡ not (is_present seen) }
{
    !seen.is_present()
}

// 7: a − node.
pub fn is_minus(seen: State) -> bool
    ensures { result ≡ is_shrink seen }
{
    seen == State::Shrink
}

// 7 of two nodes.
pub fn are_not_growing(seen_1: State, seen_2: State) -> bool
    ensures { result ≡ none_growing seen_1 seen_2 }
{
    is_minus(seen_1) || is_minus(seen_2) || !(seen_1 == State::Grow || seen_2 == State::Grow)
}
