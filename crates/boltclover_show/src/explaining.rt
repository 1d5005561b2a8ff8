// A refusal in words: which node or field of the request, and what stands there. The refusal is given by the call; here it is only told
// what it was given for, on the same table, which the refusal left as it was. None where the refusal's own words say all there is to say.
use crate::{conflict, expansion, virtual_conflict};
use record::Request;
use refusal::Refused;
use table::Table;
use text::Reason;

pub fn why(t: &Table, request: Request, refused: Refused) -> Option<Reason> {
    match request {
        Request::Conflict(c) => conflict::why(t, c, refused),
        Request::VirtualConflict(c) => virtual_conflict::why(t, c, refused.refusal),
        Request::Expansion(e) => expansion::why(t, e.node, refused.refusal),
        Request::Reset | Request::List => None,
    }
}
