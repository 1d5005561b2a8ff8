// A request, served by the call that it asks for.
ghost use Rattle.outcome.specs.Call.{Call};
ghost use Rattle.boltclover_show.specs.Served.{Served};

use record::Request;
use refusal::Answer;
use table::Table;

// Room for the answers to any request.
pub const ROOM: usize = 8192;

// Kept: each kind of request has its own fields and its own call.
#[tactic(auto, using(crate::proofs::Resets::reset_beside))]
pub fn serve(t: &mut Table, out: &mut [u8], request: Request) -> Answer
    ensures { Call request t.old out.old result t.new out.new }
{
    match request {
        Request::Conflict(c) => primal::conflict(t, out, c),
        Request::VirtualConflict(c) => primal::virtual_conflict(t, out, c),
        Request::Expansion(e) => primal::expand(t, out, e),
        Request::Reset => primal::reset(t),
        Request::List => primal::list(t, out),
    }
}

// Only the table keeps what was answered.
pub fn serve_silently(t: &mut Table, request: Request)
    ensures { Served 8192 request t.old t.new }
{
    let mut out = [0; ROOM];
    let _ = serve(t, &mut out, request);
}
