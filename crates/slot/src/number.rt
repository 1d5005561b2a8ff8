// Node numbers and vertex numbers count separate things, so each has a type of its own: one cannot be passed for the other.
ghost use Rattle.std.specs.Prelude.{◌≡◌, ◌==◌, ◌%◌, ◌/◌};
ghost use Rattle.slot.specs.Number.{none, no_vertex, vertex_from};

#[derive(Clone, Copy, PartialEq, Eq)]
pub struct Node(pub u16);

#[derive(Clone, Copy, PartialEq, Eq)]
pub struct Vertex(pub u32);

impl Node {
    // 01: "Node numbers have 16 bits (65,535 is none)".
    pub const NONE: Node = Node(65535);

    pub fn is_none(self) -> bool
        ensures { result ≡ (self.0 == none) }
    {
        self == Node::NONE
    }
}

impl Vertex {
    // 01: "vertex numbers 32 (4,294,967,295 is none)".
    pub const NONE: Vertex = Vertex(4294967295);

    pub fn is_none(self) -> bool
        ensures { result ≡ (self.0 == no_vertex) }
    {
        self == Vertex::NONE
    }

    // A vertex number fills two words of the table, the low one first.
    // Kept: words are no bytes, so no function of the library puts them together; the definition `vertex_from` says it by these signs.
    pub fn from_words(low: u16, high: u16) -> Vertex
        ensures { result.0 ≡ vertex_from low high }
    {
        Vertex((low as u32) + (high as u32) * 65536)
    }

    // Kept: as from_words; the edit of the low word stands on it.
    pub fn low_word(self) -> u16
        ensures { result ≡ self.0 % 65536 }
    {
        (self.0 % 65536) as u16
    }

    // Kept: as from_words.
    pub fn high_word(self) -> u16
        ensures { result ≡ self.0 / 65536 }
    {
        (self.0 / 65536) as u16
    }
}
