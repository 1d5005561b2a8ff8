// Runs tapes. Text on standard input goes out as it is, but for what stands between two |: that is a case, and what came of it goes
// out in its place.
//   |128 short-1.tape.answers|   Replays a stored tape on a fresh table of begin 128, and holds the answers to the original's.
//   |2... ab.. ca.. cb.. de.. |   Does these requests on a fresh table, and the last two, here, in every order. Requests that
//                                concern nothing in common, and of which at most one makes a blossom, leave the same table
//                                and get the same commands in every order.
#![tactic(auto)]

mod letters;
mod orders;
mod stored;
mod telling;

ghost use Rattle.std.specs.Prelude.{◌≤◌, length};

use boltclover_shared::input::read_from;
use std::io;
use std::rt::Files;
use table::Table;

// No more is read of standard input or of a file, and a run has so much room for its answers.
const ROOM: usize = 65536;

// Runs a tape, and tells how many requests were handled.
fn run(t: &mut Table, tape: &[u8], out: &mut [u8], allowance: u32) -> u32 {
    match primal::run(t, tape, out, allowance) {
        Ok(run) => run.handled,
        Err(_) => 0,
    }
}

// The requests of a script on a fresh table, each by a run of its own; after the last come listings, up to 23 in all.
fn in_order(t: &mut Table, out: &mut [u8], script: &[u8], order: usize)
    requires { 65536 ≤ length out.old }
{
    // Begin 128 is never refused.
    let _ = primal::make(t, 128);
    for k in 1..24 {
        let i = orders::at(script, order, k);
        let from = i % 24 * orders::ROOM;
        let to = from + 4104;
        run(t, &letters::request(script, i), &mut out[from..to], 1);
    }
}

fn agrees(t: &Table, out: &[u8; ROOM], script: &[u8], order: usize) -> bool {
    let mut own = [0u16; table::layout::WORDS];
    let mut own_out = [0u8; ROOM];
    in_order(&mut own, &mut own_out, script, order);
    orders::is_same(&own, t, &own_out, out)
}

// Order 0, in which the requests are written, is what the others are held to.
fn in_orders(rt: &impl Print, script: &[u8]) -> io::Result<()> {
    let mut t = [0u16; table::layout::WORDS];
    let mut out = [0u8; ROOM];
    in_order(&mut t, &mut out, script, 0);
    let orders = orders::count(script, &out);
    let agreeing = (0..orders)
        .filter(|order| agrees(&t, &out, script, *order))
        .count();
    orders::report(rt, agreeing, orders)
}

fn replay(rt: &(impl Print + Files), case: &[u8]) -> io::Result<()> {
    let mut tape = [0u8; ROOM];
    let mut out = [0u8; ROOM];
    let mut t = [0u16; table::layout::WORDS];
    let n = stored::tape(rt, case, &mut tape);
    // A begin that is refused leaves the words as they are, no sound table, and then the run handles nothing.
    let _ = primal::make(&mut t, stored::begin(case));
    let handled = run(&mut t, &tape[..n], &mut out, 65536);
    stored::report(rt, case, handled, &out)
}

fn case(rt: &(impl Print + Files), case: &[u8]) -> io::Result<()> {
    if telling::is_script(case) {
        return in_orders(rt, case);
    }
    replay(rt, case)
}

// Every other stretch between two | is a case. A write that fails is passed over: what is missing is seen in what was printed.
fn cases(rt: &(impl Print + Files), text: &[u8]) -> io::Result<()> {
    for (i, stretch) in text.split(|byte| *byte == b'|').enumerate() {
        if i % 2 == 0 {
            let _ = rt.write_all(stretch);
        } else {
            case(rt, stretch)?;
        }
    }
    Ok(())
}

fn main(rt: HostRuntime) -> io::Result<()> {
    let mut text = [0u8; ROOM];
    let n = read_from(&mut rt.stdin(), &mut text);
    cases(&rt, &text[..n])
}
