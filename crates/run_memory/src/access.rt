// Where a fetch or a store reaches: judged once.
ghost use Rattle.std.specs.Prelude.{◌≡◌, ◌≤◌};
ghost use Rattle.links.specs.Depths.{cells_depth};
ghost use Rattle.machine.specs.Limits.{memory_length};
ghost use Rattle.reach.specs.Spots.{width_of, spot_of, says_reached};
ghost use Rattle.run_words.specs.Accesses.{reach_of, ReachedWithin};

use machine::{Machine, Reach, Refusal};
use reach::Spot;

// No access has more than four bytes, and nearly every one is to shared bytes, which all are to a machine that is alone.
fn spot_of(reach: Reach, code: u8, address: u32) -> Result<Spot, Refusal>
    requires { reach.shared ≤ memory_length }
    ensures { (says_reached result ≡ spot_of reach (width_of code) address) × ReachedWithin reach (width_of code) result }
{
    let at = address as usize;
    if at + 4 <= reach.shared {
        return Ok(Spot::Memory(at));
    }
    reach::spot_of(reach, code, address)
}

// The address is the top cell; a store has its value under it.
pub fn reach(
    cells: &[u32; Machine::CELLS],
    reach: Reach,
    takes: usize,
    code: u8,
    p: usize,
) -> Result<Spot, Refusal>
    requires { (1 ≤ takes) × ((p ≤ cells_depth) × (reach.shared ≤ memory_length)) }
    ensures { (says_reached result ≡ reach_of reach takes (width_of code) cells.now p) × ReachedWithin reach (width_of code) result }
{
    if p < takes {
        return Err(Refusal::TooFewCells);
    }
    spot_of(reach, code, cells[p - 1])
}
