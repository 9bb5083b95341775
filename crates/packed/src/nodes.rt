// Nodes as symbols in which heads stand.
ghost use Rattle.std.specs.Prelude.{◌≡◌, ◌≤◌, drop, Some};
ghost use Rattle.std.specs.List.{slice_get};
ghost use Rattle.packed.specs.declared.node.Node.{Node};
ghost use Rattle.packed.specs.Ends.{nodes_end};
ghost use Rattle.packed.specs.Reading.{blank_behind, read_nodes};
ghost use Rattle.packed.specs.Trees.{Whole};

use crate::head::Head;
use crate::node::Node;
use crate::reader::Symbol;
use crate::shapes::Shapes;

// Whether nothing but 0 stands behind the first k integers. (`whole` is what reading all four tells of a node, which a
// chain over those behind k does not.)
fn blank_behind(node: &Node, k: u8) -> bool
    ensures value { result ≡ blank_behind k node.now }
    ensures whole { Whole node.now }
{
    let [a, b, c, d] = node.integers;
    // `|` and `&` have no branch: one comparison each, and one way through
    ((k > 0) | (a == 0)) & ((k > 1) | (b == 0)) & ((k > 2) | (c == 0)) & ((k > 3) | (d == 0))
}

impl Symbol for Node {
    ghost scan = { λ ns g due at. read_nodes g due (drop at ns) at };

    ghost fits = { λ ns i. (n : Node) → slice_get ns i ≡ Some n → Whole n };

    ghost ends = { nodes_end };

    fn head(shapes: &Shapes, word: &[Node], at: usize, ty: u8) -> Result<Head, usize> {
        let node = word.get(at).ok_or(at)?;
        let constructor = shapes.form(ty, node.constructor).ok_or(at)?;
        if !blank_behind(node, constructor.fields.integers) {
            return Err(at);
        }
        Ok(Head {
            constructor,
            end: at + 1,
        })
    }
}
