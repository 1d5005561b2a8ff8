// Runs reading and writing at their limits, in bytes and in words, and prints a line for each case: records first, then the lines of
// standard input.
#![tactic(auto)]

mod lines;
mod made;
mod message;
mod read;
mod show;
mod write;

use std::io;

fn main(rt: HostRuntime) -> io::Result<()> {
    read::lengths(&rt)?;
    read::padding(&rt)?;
    read::largest(&rt)?;
    read::kinds(&rt)?;
    write::all(&rt)?;
    lines::all(&rt)
}
