// What a run does next: it stops, or it handles one more record (01, "Records").
ghost use Rattle.std.specs.Prelude.{◌≡◌};
ghost use Rattle.tape.specs.Next.{next_of};

use record::Request;
use rules::Stop;

// One more record: its request, the bytes that it fills, and how many records are allowed after it.
#[derive(Clone, Copy)]
pub struct Next {
    pub request: Request,
    pub size: usize,
    pub left: u32,
}

// 01: "Before each record it stops, in this order". The room is what the output has left: 4,096 bytes for the answers and 8 for
// the end record.
#[tactic(auto, unfolding(crate::specs::Next::next_of))]
pub fn what_next(rest: &[u8], left: u32, room: usize) -> Result<Next, Stop>
    ensures { result ≡ next_of rest.now left room }
{
    if rest.is_empty() {
        return Err(Stop::TapeEmpty);
    }
    if left == 0 {
        return Err(Stop::AllowanceUsed);
    }
    if room < outcome::RUN_ROOM {
        return Err(Stop::OutputFull);
    }
    match record_reading::read_record(rest) {
        Ok((request, size)) => Ok(Next {
            request,
            size,
            left: left - 1,
        }),
        Err(_) => Err(Stop::BadRecord),
    }
}
