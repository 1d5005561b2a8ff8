// Writing: each record into rooms about its size, at several positions. The bytes around it are ee.
ghost use Rattle.std.specs.Prelude.{◌<◌};

use crate::show;
use record::{Conflict, Expansion, Pair, Record, Request, Speed, VirtualConflict, VirtualPair};
use refusal::{Answer, Side};
use slot::{Node, Vertex};
use std::io;

fn answer_of(i: u8) -> Record {
    match i {
        0 => Record::Speed(Node(1), Speed::Stay),
        1 => Record::Speed(Node(258), Speed::Grow),
        2 => Record::Speed(Node(65535), Speed::Shrink),
        3 => Record::Create(Node(128)),
        4 => Record::Expand(Node(255)),
        5 => Record::End(6, Side::Second),
        6 => Record::Pair(Pair {
            node: Node(0),
            peer: Node(1),
            through: Vertex(10),
            peer_through: Vertex(4294967295),
        }),
        _ => Record::VirtualPair(VirtualPair {
            node: Node(1),
            through: Vertex(16909060),
            virtual_vertex: Vertex(99),
        }),
    }
}

fn request_of(i: u8) -> Request {
    match i {
        8 => Request::Conflict(Conflict {
            node_1: Node(1),
            node_2: Node(2),
            touch_1: Node(3),
            touch_2: Node(65535),
            vertex_1: Vertex(16909060),
            vertex_2: Vertex(4294967295),
        }),
        9 => Request::VirtualConflict(VirtualConflict {
            node: Node(258),
            touch: Node(772),
            vertex: Vertex(10),
            virtual_vertex: Vertex(99),
        }),
        10 => Request::Expansion(Expansion { node: Node(128) }),
        11 => Request::Reset,
        _ => Request::List,
    }
}

// The first eight records are answers, the others requests.
fn put(out: &mut [u8], pos: usize, i: u8) -> Answer {
    if i < 8 {
        return record_writing::write(out, pos, answer_of(i));
    }
    record_writing::write(out, pos, request_of(i))
}

fn record(rt: &HostRuntime, i: u8, room: usize, pos: usize) -> io::Result<()> {
    let mut bytes = [238u8; 24];
    if room > 24 {
        return Ok(());
    }
    show::told(rt, "write room ", room)?;
    show::told(rt, " at ", pos)?;
    let answer = put(&mut bytes[..room], pos, i);
    show::outcome(rt, answer, &bytes)
}

// A record of size bytes: no room, one byte short, exact, one byte more; then in the middle, one byte too far, at the end and past it.
fn rooms(rt: &HostRuntime, i: u8, size: usize) -> io::Result<()>
    requires size_nonzero { 0 < size }
    requires size_bound { size < 23 }
{
    record(rt, i, 0, 0)?;
    record(rt, i, size - 1, 0)?;
    record(rt, i, size, 0)?;
    record(rt, i, size + 1, 0)?;
    record(rt, i, size + 2, 2)?;
    record(rt, i, size + 2, 3)?;
    record(rt, i, size + 2, size + 2)?;
    record(rt, i, size + 2, 1000)
}

pub fn all(rt: &HostRuntime) -> io::Result<()> {
    rooms(rt, 0, 8)?;
    rooms(rt, 1, 8)?;
    rooms(rt, 2, 8)?;
    rooms(rt, 3, 6)?;
    rooms(rt, 4, 6)?;
    rooms(rt, 5, 8)?;
    rooms(rt, 6, 16)?;
    rooms(rt, 7, 14)?;
    rooms(rt, 8, 20)?;
    rooms(rt, 9, 16)?;
    rooms(rt, 10, 6)?;
    rooms(rt, 11, 4)?;
    rooms(rt, 12, 4)
}
