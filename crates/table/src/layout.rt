// Where the words of a table stand: the one place that numbers them, held beside specs/Layout. A wider slot begins here, with the words
// that `link_at`, `slot_at` and `storing` read and write.

pub const SLOTS: usize = 256;

// Mark, parent, first child, sibling, first blossom child, and the link.
pub const SLOT_WORDS: usize = 11;

pub const PARENT: usize = 1;

pub const FIRST_CHILD: usize = 2;

pub const SIBLING: usize = 3;

// Where the link begins in its slot: touch, peer touch, through, peer through; a through has two words.
pub const LINK: usize = 5;

// Behind the slots.
pub const BEGIN: usize = SLOTS * SLOT_WORDS;

pub const COUNT_DEFECTS: usize = BEGIN + 1;

pub const COUNT_BLOSSOMS: usize = BEGIN + 2;

pub const WORDS: usize = BEGIN + 3;
