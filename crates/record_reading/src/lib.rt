// Reading a record from a tape.
#![tactic(auto)]

pub mod fields;
pub mod padding;

ghost use Rattle.std.specs.Prelude.{◌≡◌};
ghost use Rattle.record.specs.Reading.{read};

use record::{Kind, Reading, Request};
use refusal::Refusal;

// The request that stands first on the tape, with the bytes that it fills, its padding with them. 01: "Bad: cut short, other kind,
// other length."; ticket 2 of 02: "12 for nonzero padding or any other length".
#[tactic(auto, unfolding(record::specs::Reading::read))]
pub fn read_record(tape: &[u8]) -> Reading
    ensures { result ≡ read tape.now }
{
    if tape.len() < 4 {
        return Err(Refusal::BadRecord);
    }
    let length = fields::narrow_at(tape, 0);
    if tape.len() < (length as usize) + 2 {
        return Err(Refusal::BadRecord);
    }
    let kind = Kind::try_from(fields::narrow_at(tape, 2))?;
    let exact = kind.length();
    if !padding::has_its_length(tape, exact, length) {
        return Err(Refusal::BadRecord);
    }
    // The padding is taken with the record.
    let size = (length as usize) + 2;
    match kind {
        Kind::Conflict => Ok((Request::Conflict(fields::conflict_at(tape)), size)),
        Kind::VirtualConflict => Ok((Request::VirtualConflict(fields::virtual_at(tape)), size)),
        Kind::Expansion => Ok((Request::Expansion(fields::expansion_at(tape)), size)),
        Kind::Reset => Ok((Request::Reset, size)),
        Kind::List => Ok((Request::List, size)),
        // 01: "Reading takes requests alone."
        Kind::Speed | Kind::Create | Kind::Expand | Kind::End | Kind::Pair | Kind::VirtualPair =>
            Err(Refusal::BadRecord),
    }
}
