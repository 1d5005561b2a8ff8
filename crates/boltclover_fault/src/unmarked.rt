// The first node that names another as its parent and that a walk along that node's list or ring did not come to.
use slot::Node;
use table::marks;

// On a list outer nodes are looked for, on a ring inner ones. None where every such node was come to.
pub fn first_unmarked<F: Fn(Node) -> bool>(seen: &[u8], is_child: F) -> Option<Node>
    requires { (f : F) (n : _) → F.pre f n }
{
    (0..256)
        .map(Node)
        .find(|&n| !marks::is_marked(seen, n) && is_child(n))
}
