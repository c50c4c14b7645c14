// White space.
ghost use Rattle.std.specs.Prelude.{◌≤◌, length};
ghost use Rattle.ntriples_tokens.specs.Promises.{SpaceEnds};

use crate::characters::blank;

// The first place from `at` on that has neither a space nor a tab.
#[tactic(auto, unfolding(ntriples::specs::Grammar::ws))]
pub fn skip_space(chars: &[u32], at: usize) -> usize
    requires { at ≤ length chars.now }
    ensures { SpaceEnds chars.now at result }
{
    for i in at..chars.len() {
        if !blank(chars[i]) {
            return i;
        }
    }
    chars.len()
}
