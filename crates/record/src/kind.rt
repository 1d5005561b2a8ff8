// The kinds of records, each with its number and its length (01, "Records").
ghost use Rattle.std.specs.Prelude.{◌≡◌};
ghost use Rattle.refusal.specs.declared.Refusal.TheVariants.{BadRecord};
ghost use Rattle.record.specs.Kinds.{kind_of, length_of, number_of_kind};

use refusal::Refusal;

#[derive(Clone, Copy, PartialEq, Eq)]
pub enum Kind {
    // Requests.
    Conflict,
    VirtualConflict,
    Expansion,
    Reset,
    List,
    // Answers.
    Speed,
    Create,
    Expand,
    End,
    Pair,
    VirtualPair,
}

// A number that no kind of record has.
#[derive(Clone, Copy, PartialEq, Eq)]
pub struct UnknownKind(pub u16);

// 01: "Bad: [..] other kind".
impl From<UnknownKind> for Refusal {
    ghost from_gives = { λ _ refusal. refusal ≡ BadRecord };

    fn from(_number: UnknownKind) -> Refusal {
        Refusal::BadRecord
    }
}

// 01: "Requests: 1 conflict [..] Answers: 16 speed [..]".
impl TryFrom<u16> for Kind {
    type Error = UnknownKind;

    ghost try_from_gives = { λ number r. r ≡ kind_of number };

    #[tactic(auto, unfolding(crate::specs::Kinds::kind_of))]
    fn try_from(number: u16) -> Result<Kind, UnknownKind> {
        match number {
            1 => Ok(Kind::Conflict),
            2 => Ok(Kind::VirtualConflict),
            3 => Ok(Kind::Expansion),
            4 => Ok(Kind::Reset),
            5 => Ok(Kind::List),
            16 => Ok(Kind::Speed),
            17 => Ok(Kind::Create),
            18 => Ok(Kind::Expand),
            19 => Ok(Kind::End),
            20 => Ok(Kind::Pair),
            21 => Ok(Kind::VirtualPair),
            0 | 6..=15 | 22..=65535 => Err(UnknownKind(number)),
        }
    }
}

impl From<Kind> for u16 {
    ghost from_gives = { λ kind number. number ≡ number_of_kind kind };

    fn from(kind: Kind) -> u16 {
        match kind {
            Kind::Conflict => 1,
            Kind::VirtualConflict => 2,
            Kind::Expansion => 3,
            Kind::Reset => 4,
            Kind::List => 5,
            Kind::Speed => 16,
            Kind::Create => 17,
            Kind::Expand => 18,
            Kind::End => 19,
            Kind::Pair => 20,
            Kind::VirtualPair => 21,
        }
    }
}

impl Kind {
    // The bytes that a record of this kind has after its length field, without padding.
    pub fn length(self) -> u16
        ensures { result ≡ length_of self }
    {
        match self {
            Kind::Conflict => 18,
            Kind::VirtualConflict => 14,
            Kind::Expansion => 4,
            Kind::Reset => 2,
            Kind::List => 2,
            Kind::Speed => 6,
            Kind::Create => 4,
            Kind::Expand => 4,
            Kind::End => 6,
            Kind::Pair => 14,
            Kind::VirtualPair => 12,
        }
    }
}
