// Scripts: some requests, and then listings; the last of the requests come in every order. A script's first group tells how many
// these are, at most seven.
use crate::telling::told;
use std::io;
use table::Table;

// Where i goes when what stands at a and at b is exchanged.
fn exchanged(i: usize, a: usize, b: usize) -> usize {
    if i == a {
        return b;
    }
    if i == b {
        return a;
    }
    i
}

// Which request comes at place k in an order; in order 0 this is request k. The remainder of the order by 2, of the quotient by 3
// and so on tell which exchange is made in the last two, three .. places, so each order below 6! arranges the last six otherwise.
pub fn at(script: &[u8], order: usize, k: usize) -> usize {
    let n = script.len() / 5;
    let mut i = k;
    let mut rest = order;
    for last in 2..n {
        let first = n - last;
        i = exchanged(i, first, first + rest % last);
        rest = rest / last;
    }
    i
}

// The answers to request i start at i times this. Its room is 4,104 bytes, what a run wants, of which the next room leaves it these:
// no request of a script has more answers.
pub const ROOM: usize = 2600;

// Whether an accepted request has these answers: a refused one is answered by its end alone, a record of kind 19, with the refusal's
// number. No answer has a kind above 21.
fn is_accepted(answers: &[u8]) -> bool {
    match answers {
        [_, _, 19, _, number, ..] => *number == 0,
        [_, _, kind, ..] => *kind < 22,
        _ => false,
    }
}

fn are_accepted(out: &[u8; 65536]) -> bool {
    out.chunks(ROOM).skip(1).take(23).all(is_accepted)
}

// How many orders there are to try: none where a request is refused.
pub fn count(script: &[u8], out: &[u8; 65536]) -> usize {
    let orders: [usize; 8] = [1, 1, 2, 6, 24, 120, 720, 5040];
    match script.first() {
        Some(letter) if are_accepted(out) => orders[(*letter % 8) as usize],
        _ => 0,
    }
}

// Whether two orders end in the same table, with the same answers to each request and the same listing.
pub fn is_same(a: &Table, b: &Table, a_out: &[u8; 65536], b_out: &[u8; 65536]) -> bool {
    a == b && a_out == b_out
}

pub fn report(rt: &impl Print, agreeing: usize, orders: usize) -> io::Result<()> {
    if orders == 0 {
        return print!(rt; "a request is refused");
    }
    told(
        rt,
        agreeing,
        " of ",
        orders,
        agreeing == orders,
        " orders: same",
        " orders: different",
    )
}
