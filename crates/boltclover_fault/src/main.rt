// The program that says why a table is damaged (ticket 5 of 02). A table stands on standard input as the C interface holds it: 2,819
// words of two bytes, the low one first. Printed is "sound"; or the fault that `primal::fault` names, rule and slot, with what stands
// there, then what the rule asks, and the slots that it is about, field by field.
#![tactic(auto)]

mod asked;
mod field;
mod finding;
mod report;
mod s1_slots;
mod s2_pointers;
mod s3_singles;
mod s4_tree_nodes;
mod s5_child_lists;
mod s6_rings;
mod s7_ways_up;
mod s8_touches;
mod shown;
mod unmarked;

use boltclover_shared::{Ending, Input};
use std::process::ExitCode;
use table::Table;
use table::layout::WORDS;

const TABLE_BYTES: usize = 2 * WORDS;

fn load(bytes: &[u8]) -> Table {
    let mut table = [0; WORDS];
    for (i, word) in table.iter_mut().enumerate() {
        *word = text::narrow_at(bytes, 2 * i);
    }
    table
}

// How the program ends that has something to print.
fn print(rt: &HostRuntime, text: &[u8], ending: Ending) -> Ending {
    if boltclover_shared::write_out(rt, text) {
        return ending;
    }
    Ending::Badly
}

fn tell(rt: &HostRuntime, t: &Table) -> Ending {
    match primal::fault(t) {
        None => print(rt, b"sound\n", Ending::Well),
        Some(fault) => print(
            rt,
            report::page(t, fault.rule, fault.slot).as_bytes(),
            Ending::Badly,
        ),
    }
}

// What was read has another length than a table, or more bytes than were looked at.
// Kept: a yes or no, which goes with the length whichever it is.
fn no_table(rt: &HostRuntime, length: usize, is_more: bool) -> Ending {
    let more = if is_more { " or more" } else { "" };
    boltclover_shared::complain(
        rt,
        format_args!(
            "no table: a table has {TABLE_BYTES} bytes, {WORDS} words of two, and here are {length}{more}\n"
        ),
    );
    Ending::Misused
}

fn tell_input(rt: &HostRuntime) -> Ending {
    let mut input = Input::<65536>::new();
    input.fill(rt);
    let bytes = input.as_bytes();
    if bytes.len() != TABLE_BYTES {
        return no_table(rt, bytes.len(), input.is_full());
    }
    tell(rt, &load(bytes))
}

fn main(rt: HostRuntime) -> ExitCode {
    ExitCode::from(tell_input(&rt))
}
