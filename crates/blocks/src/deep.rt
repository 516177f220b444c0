ghost use Rattle.std.specs.Prelude.{◌≡◌};
ghost use Rattle.table.specs.Description.{description};
ghost use Rattle.blocks.specs.Nesting.{deeper};
ghost use Rattle.blocks.specs.Stretches.{node_depth};

use crate::blocks::DEEPEST;
use fields::nodes::is_operator;
use table::loaded::Loaded;

// Whether node n is more than `levels` deep.
#[tactic(auto, using(crate::proofs::Steps::deeper_none, crate::proofs::Steps::deeper_by))]
pub(crate) fn deeper(levels: usize, loaded: &Loaded, n: usize) -> bool
    ensures { result ≡ deeper levels (description loaded.now) n }
{
    if levels == 0 {
        return true;
    }
    let node = loaded.node(n);
    is_operator(node)
        && (deeper(levels - 1, loaded, node.a as usize)
            || deeper(levels - 1, loaded, node.b as usize))
}

// Whether node n is more than eight deep.
pub fn node_depth(loaded: &Loaded, n: usize) -> bool
    ensures { result ≡ node_depth (description loaded.now) n }
{
    deeper(DEEPEST, loaded, n)
}
