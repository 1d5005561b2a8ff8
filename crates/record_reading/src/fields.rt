// The fields of a request, read from a tape that is long enough to hold them.
ghost use Rattle.std.specs.Prelude.{◌≡◌, ◌+◌, ◌≤◌, length, take, drop};
ghost use Rattle.record.specs.declared.kind.Kind.TheVariants as K;
ghost use Rattle.record.specs.Kinds.{widths};
ghost use Rattle.record.specs.Fields.{number, decode};
ghost use Rattle.record.specs.Records.{conflict_from, virtual_from, expansion_from};

use record::{Conflict, Expansion, VirtualConflict};
use slot::{Node, Vertex};

// The two-byte number that starts at a place, low byte first.
pub fn narrow_at(tape: &[u8], at: usize) -> u16
    requires { at + 2 ≤ length tape.now }
    ensures { result ≡ number (take 2 (drop at tape.now)) }
{
    u16::from_le_bytes([tape[at], tape[at + 1]])
}

// The four-byte number that starts at a place.
pub fn wide_at(tape: &[u8], at: usize) -> u32
    requires { at + 4 ≤ length tape.now }
    ensures { result ≡ number (take 4 (drop at tape.now)) }
{
    u32::from_le_bytes([tape[at], tape[at + 1], tape[at + 2], tape[at + 3]])
}

// Kept: three functions and not one, since each names other fields and each is called once, by its type.
pub fn conflict_at(tape: &[u8]) -> Conflict
    requires { 20 ≤ length tape.now }
    ensures { result ≡ conflict_from (decode (widths K.Conflict) (drop 4 tape.now)) }
{
    Conflict {
        node_1: Node(narrow_at(tape, 4)),
        node_2: Node(narrow_at(tape, 6)),
        touch_1: Node(narrow_at(tape, 8)),
        touch_2: Node(narrow_at(tape, 10)),
        vertex_1: Vertex(wide_at(tape, 12)),
        vertex_2: Vertex(wide_at(tape, 16)),
    }
}

pub fn virtual_at(tape: &[u8]) -> VirtualConflict
    requires { 16 ≤ length tape.now }
    ensures { result ≡ virtual_from (decode (widths K.VirtualConflict) (drop 4 tape.now)) }
{
    VirtualConflict {
        node: Node(narrow_at(tape, 4)),
        touch: Node(narrow_at(tape, 6)),
        vertex: Vertex(wide_at(tape, 8)),
        virtual_vertex: Vertex(wide_at(tape, 12)),
    }
}

pub fn expansion_at(tape: &[u8]) -> Expansion
    requires { 6 ≤ length tape.now }
    ensures { result ≡ expansion_from (decode (widths K.Expansion) (drop 4 tape.now)) }
{
    let node = Node(narrow_at(tape, 4));
    Expansion { node }
}
