// Why a run stops (01, "Records").
ghost use Rattle.std.specs.Prelude.{◌≡◌};
ghost use Rattle.rules.specs.Run.{stop_number};

// In the order in which a run asks, before each record.
#[derive(Clone, Copy, PartialEq, Eq)]
pub enum Stop {
    TapeEmpty,
    // As many records as the caller allows are handled.
    AllowanceUsed,
    // The output has less room than a request may need.
    OutputFull,
    BadRecord,
}

impl From<Stop> for u16 {
    ghost from_gives = { λ stop number. number ≡ stop_number stop };

    fn from(stop: Stop) -> u16 {
        match stop {
            Stop::TapeEmpty => 0,
            Stop::AllowanceUsed => 1,
            Stop::OutputFull => 2,
            Stop::BadRecord => 3,
        }
    }
}
