// A slot's state, and the mark that stands for it in the table's words.
ghost use Rattle.std.specs.Prelude.{◌≡◌};
ghost use Rattle.slot.specs.State.{state_of, mark_of, is_outer, is_inner, is_present};

#[derive(Clone, Copy, PartialEq, Eq)]
pub enum State {
    // No node.
    Empty,
    // A node inside a blossom: present, without a state of its own.
    Inner,
    Stay,
    Grow,
    Shrink,
    // A mark that stands for none of these.
    Damaged,
}

impl State {
    // 01: "A node is outer if it has a state."
    pub fn is_outer(self) -> bool
        ensures { result ≡ is_outer self }
    {
        matches!(self, State::Stay | State::Grow | State::Shrink)
    }

    // An inner node: inside a blossom.
    pub fn is_inner(self) -> bool
        ensures { result ≡ is_inner self }
    {
        self == State::Inner
    }

    // Whether a node stands in the slot.
    pub fn is_present(self) -> bool
        ensures { result ≡ is_present self }
    {
        self != State::Empty
    }
}

// 01: "a mark that is none of the five" is damage, so every mark has its state.
impl From<u16> for State {
    ghost from_gives = { λ mark s. s ≡ state_of mark };

    fn from(mark: u16) -> State {
        match mark {
            0 => State::Empty,
            1 => State::Inner,
            2 => State::Stay,
            3 => State::Grow,
            4 => State::Shrink,
            5..=65535 => State::Damaged,
        }
    }
}

impl From<State> for u16 {
    ghost from_gives = { λ s mark. mark ≡ mark_of s };

    fn from(state: State) -> u16 {
        match state {
            State::Empty => 0,
            State::Inner => 1,
            State::Stay => 2,
            State::Grow => 3,
            State::Shrink => 4,
            State::Damaged => 5,
        }
    }
}
