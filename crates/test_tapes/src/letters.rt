// Requests written in four letters, each with a blank after it. The first group of a script is none of them, but tells how many of
// the last come in every order. A small letter names a defect, a capital one a blossom: a is 0,
// b is 1, A is 128, B is 129.
//   ab..  conflict of a and b, and then their touches. A dot stands for the node itself; Adb. touches A at b.
//   a!..  virtual conflict at a, and then its touch.
//   A?..  expansion of A.
// A touch has the vertex ten above its number, and the virtual vertex is 99.
ghost use Rattle.std.specs.Prelude.{◌≤◌, ◌≡◌, length};

// What a letter names. A dot names own.
fn node(letter: u8, own: u8) -> u8
    requires { own ≤ 158 }
    ensures { result ≤ 158 }
{
    if letter == b'.' {
        return own;
    }
    if letter < b'a' {
        return letter % 32 + 127;
    }
    letter - b'a'
}

// The tape that request i of a script is: nodes a and b, their touches c and d, and the vertices v and w of these. They are
// counted from 1, and after the last comes the listing.
pub fn request(script: &[u8], i: usize) -> [u8; 20]
    ensures { 20 ≡ length result }
{
    if script.len() / 5 <= i {
        return [2, 0, 5, 0, 0, 0, 0, 0, 0, 0, 0, 0, 0, 0, 0, 0, 0, 0, 0, 0];
    }
    let at = i * 5;
    let second = script[at + 1];
    let a = node(script[at], 0);
    if second == b'?' {
        return [4, 0, 3, 0, a, 0, 0, 0, 0, 0, 0, 0, 0, 0, 0, 0, 0, 0, 0, 0];
    }
    let c = node(script[at + 2], a);
    let v = c + 10;
    if second == b'!' {
        return [14, 0, 2, 0, a, 0, c, 0, v, 0, 0, 0, 99, 0, 0, 0, 0, 0, 0, 0];
    }
    let b = node(second, 0);
    let d = node(script[at + 3], b);
    let w = d + 10;
    [18, 0, 1, 0, a, 0, b, 0, c, 0, d, 0, v, 0, 0, 0, w, 0, 0, 0]
}
