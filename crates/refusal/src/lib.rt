// The numbers given back: every refusal of the rules (docs/RULES-IN-WORDS.md), and the answer of a call that writes.
#![tactic(auto)]

ghost use Rattle.std.specs.Prelude.{◌≡◌};
ghost use Rattle.refusal.specs.declared.Side.TheVariants as S;
ghost use Rattle.refusal.specs.Refusal.{number_of, side_number, at_side, answer_number, answer_side, answer_written};

// One case for each number of 01's table, in its order.
#[derive(Clone, Copy, PartialEq, Eq)]
pub enum Refusal {
    NotSound,
    NoRecordRoom,
    NoSuchNode,
    NotOuter,
    SameNode,
    TouchOutside,
    NotGrowing,
    NoBlossomSlot,
    NoCommandRoom,
    NoListingRoom,
    NotExpandable,
    BadRecord,
    BadBegin,
}

// Which of the two nodes that a conflict names a refusal is for. A virtual conflict's one node is the first; other refusals name no side.
// Kept: 01 numbers three sides, of which 0 is none, and an end record carries one of them (`side_number`, `SidesNamed`).
#[derive(Clone, Copy, PartialEq, Eq)]
pub enum Side {
    Neither,
    First,
    Second,
}

// Why a request is refused, and at which side; whatever is refused leaves everything as it was.
#[derive(Clone, Copy, PartialEq, Eq)]
pub struct Refused {
    pub refusal: Refusal,
    pub side: Side,
}

// How a call ends: with the number of bytes that it wrote, or refused.
pub type Answer = Result<usize, Refused>;

// What the checks of a request come to.
pub type Verdict = Result<(), Refused>;

impl Refusal {
    pub fn at(self, side: Side) -> Refused
        ensures { result ≡ at_side self side }
    {
        Refused {
            refusal: self,
            side,
        }
    }
}

// A refusal by itself is for neither side.
impl From<Refusal> for Refused {
    ghost from_gives = { λ refusal refused. refused ≡ at_side refusal S.Neither };

    fn from(refusal: Refusal) -> Refused {
        refusal.at(Side::Neither)
    }
}

impl From<Refusal> for u16 {
    ghost from_gives = { λ refusal number. number ≡ number_of refusal };

    fn from(refusal: Refusal) -> u16 {
        match refusal {
            Refusal::NotSound => 1,
            Refusal::NoRecordRoom => 2,
            Refusal::NoSuchNode => 3,
            Refusal::NotOuter => 4,
            Refusal::SameNode => 5,
            Refusal::TouchOutside => 6,
            Refusal::NotGrowing => 7,
            Refusal::NoBlossomSlot => 8,
            Refusal::NoCommandRoom => 9,
            Refusal::NoListingRoom => 10,
            Refusal::NotExpandable => 11,
            Refusal::BadRecord => 12,
            Refusal::BadBegin => 13,
        }
    }
}

impl From<Side> for u16 {
    ghost from_gives = { λ side number. number ≡ side_number side };

    fn from(side: Side) -> u16 {
        match side {
            Side::Neither => 0,
            Side::First => 1,
            Side::Second => 2,
        }
    }
}

// 0 for an answer, or the refusal's number.
pub fn answer_number(answer: Answer) -> u16
    ensures { result ≡ answer_number answer }
{
    match answer {
        Ok(_) => 0,
        Err(refused) => u16::from(refused.refusal),
    }
}

// 0 for an answer, or the number of the refusal's side.
pub fn answer_side(answer: Answer) -> u16
    ensures { result ≡ answer_side answer }
{
    match answer {
        Ok(_) => u16::from(Side::Neither),
        Err(refused) => u16::from(refused.side),
    }
}

// The bytes written: 0 after a refusal.
pub fn answer_written(answer: Answer) -> usize
    ensures { result ≡ answer_written answer }
{
    answer.unwrap_or(0)
}
