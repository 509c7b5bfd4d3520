// How many allocation blocks a fork has.
ghost use Rattle.std.specs.Prelude.{◌≡◌, ◌≤◌};
ghost use Rattle.model.specs.Directory.{block_count};

use crate::ForkFacts;

// A fork's block count.
pub fn block_count(g: ForkFacts, a: u32) -> u32
    requires { 512 ≤ a }
    ensures { result ≡ block_count a g }
{
    g.physical / a
}
