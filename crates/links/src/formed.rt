// The two loops of the test for well-formed links, each from the top level down to level 1. One function for both would
// take a closure for the copy that has to rise, and the second loop would still have its own test.
ghost use Rattle.std.specs.Prelude.{◌≡◌, ◌≤◌};
ghost use Rattle.plain.specs.Choice.{both};
ghost use Rattle.links.specs.Depths.{subroutines_depth, exceptions_depth, most_copy_of_p};
ghost use Rattle.links.specs.Linked.{copy_of_r, copy_of_s, copy_of_p, rises, within};

use crate::{Frame, Level, Links};

// The copies of R rise strictly up to level s, with the last below r.
pub(crate) fn returns_rise(frames: &[Frame; Links::FRAMES], r: usize, s: usize) -> bool
    requires { s ≤ subroutines_depth }
    ensures { result ≡ rises (copy_of_r frames.now) r s }
{
    let mut top = r;
    for n in (1..=s).rev() {
        let frame = frames[n];
        if top <= frame.r {
            return false;
        }
        top = frame.r;
    }
    true
}

// The copies of S rise strictly up to level e, with the last below s; and each copy of P leaves room for the code that a THROW pushes.
pub(crate) fn levels_hold(levels: &[Level; Links::LEVELS], s: usize, e: usize) -> bool
    requires { e ≤ exceptions_depth }
    ensures { result ≡ both (rises (copy_of_s levels.now) s e) (within (copy_of_p levels.now) most_copy_of_p e) }
{
    let mut top = s;
    for n in (1..=e).rev() {
        let level = levels[n];
        if top <= level.s {
            return false;
        }
        if Links::MOST_COPY_OF_P < level.p {
            return false;
        }
        top = level.s;
    }
    true
}
