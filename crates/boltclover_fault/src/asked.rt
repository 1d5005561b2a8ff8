// What each rule asks.
use rules::fault::Rule;
use std::fmt;

#[derive(Clone, Copy)]
pub struct Asked(pub Rule);

impl fmt::Display for Asked {
    fn fmt<W: fmt::Write>(&self, f: &mut fmt::Formatter<W>) -> fmt::Result {
        f.write_str(match self.0 {
            Rule::S1 => {
                "begin is 1 to 256, count_defects at most begin, begin and count_blossoms together at most 256; a slot past its count is empty, and an empty one stores nothing; only a present blossom has a first blossom child"
            }
            Rule::S2 => {
                "a parent, first child, sibling or first blossom child is none or names a present slot"
            }
            Rule::S3 => {
                "an outer node with neither parent nor child is free (Grow, and stores nothing) or matched (Stay, with touch, through and peer through): to another such node, with a peer touch, where sibling and link point back, or to a virtual vertex, without sibling and peer touch"
            }
            Rule::S4 => {
                "an outer node with a parent or a child is a root (Grow, with a child, no parent, sibling or link), a - node (Shrink, a full link, a Grow parent, one child) or a + node (Grow, a full link, no sibling, a Shrink parent)"
            }
            Rule::S5 => {
                "an outer node's first child, that child's sibling and so on to the end are the outer nodes that name it as parent, each once"
            }
            Rule::S6 => {
                "a blossom's first blossom child, that node's sibling and so on round to the first are the inner nodes that name the blossom as parent, each once, an odd number, at least 3; an inner node has a full link and no child"
            }
            Rule::S7 => {
                "from an outer node the parents come to a root within 256 steps; an inner node's parent is a blossom with a larger number"
            }
            Rule::S8 => {
                "a touch is a defect inside its node; a peer touch is one inside the matched peer, the tree parent or the ring's next node"
            }
        })
    }
}
