// The memory sum when a run is over: what was given, less what the memory lost.
ghost use Rattle.std.specs.Prelude.{◌≡◌, ◌+◌, ◌-◌, ◌%◌, ◌^◌, ◌≤◌};
ghost use Rattle.machine.specs.Limits.{most_sum};
ghost use Rattle.machine.specs.Sum.{sum_of};
ghost use Rattle.run_words.specs.Levels.{losses_in};

use crate::linked;
use machine::Tasks;

pub fn less(sum: u64, lost: u32) -> u64
    requires { sum ≤ most_sum }
    ensures { result ≡ (sum + (2 ^ 32 - lost % 2 ^ 32)) % 2 ^ 32 }
{
    u64::from((sum as u32).wrapping_sub(lost))
}

// By the stores of all four.
pub fn lost_by_all(rows: &[[[u32; linked::ROW]; linked::ROWS]; Tasks::COUNT]) -> u32
    ensures { result ≡ sum_of (losses_in rows.now) % 2 ^ 32 }
{
    rows.iter()
        .fold(0, |sum, row| sum.wrapping_add(linked::lost(row)))
}
