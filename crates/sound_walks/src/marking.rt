// A walk that marks what it passes: along a child list (S5) or around a ring (S6).
ghost use Rattle.std.specs.Prelude.{◌≡◌, ◌≤◌, ℕ, Bool, IfSome, unwrap_or};
ghost use Rattle.slot.specs.Number.{none};
ghost use Rattle.sound_walks.specs.Marks.{walked_of, marking};

use slot::Node;
use table::{Marks, marks};

// From a node to the next and so on, each marked, until there is none: how many there were. None where more than 256 follow one another, or
// one is not `mine`.
pub fn walk<N: Fn(Node) -> Node, M: Fn(Node) -> bool>(
    seen: &mut Marks,
    from: Node,
    next: N,
    mine: M,
) -> Option<u16>
    requires next { N.IsAlwaysCallable next }
    requires mine { M.IsAlwaysCallable mine }
    ensures walked { (along : ℕ → ℕ) (own : ℕ → Bool) → ((n : _) (a : _) → N.post next n a → a.0 ≡ along n.0) → ((n : _) (b : _) → M.post mine n b → b ≡ own n.0) → walked_of (unwrap_or result none) seen.new ≡ marking 256 along own from.0 0 seen.old }
    ensures few { IfSome result (λ count. count ≤ 256) }
{
    let mut here = from;
    for count in 0..256 {
        if here.is_none() {
            return Some(count);
        }
        if !mine(here) {
            return None;
        }
        seen.mark(here);
        here = next(here);
    }
    if here.is_none() { Some(256) } else { None }
}

// The same walk with its marks in lent bytes of any length.
// Kept: beside walk; a Marks has no bytes to lend, and lent bytes are no Marks.
pub fn walk_lent<N: Fn(Node) -> Node, M: Fn(Node) -> bool>(
    seen: &mut [u8],
    from: Node,
    next: N,
    mine: M,
) -> Option<u16>
    requires next { N.IsAlwaysCallable next }
    requires mine { M.IsAlwaysCallable mine }
    ensures walked { (along : ℕ → ℕ) (own : ℕ → Bool) → ((n : _) (a : _) → N.post next n a → a.0 ≡ along n.0) → ((n : _) (b : _) → M.post mine n b → b ≡ own n.0) → walked_of (unwrap_or result none) seen.new ≡ marking 256 along own from.0 0 seen.old }
    ensures few { IfSome result (λ count. count ≤ 256) }
{
    let mut here = from;
    for count in 0..256 {
        if here.is_none() {
            return Some(count);
        }
        if !mine(here) {
            return None;
        }
        marks::mark(seen, here);
        here = next(here);
    }
    if here.is_none() { Some(256) } else { None }
}
