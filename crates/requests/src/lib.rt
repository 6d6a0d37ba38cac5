// Requests for the interrupt lines: which line enters, what its entry leaves, and how a host raises one.
#![tactic(auto)]

ghost use Rattle.std.specs.Prelude.{◌≡◌, ◌-◌, ◌^◌, ◌<◌};
ghost use Rattle.machine.specs.Lines.{lowest_due, serving};
ghost use Rattle.machine.specs.Refusals.{says};
ghost use Rattle.requests.specs.Requests.{says_due, entering_with, raised_by};

use machine::{Lines, Machine, Refusal};

// Lines are numbered from 1 to this one.
const LAST: u32 = 15;

// The number of which bit n alone is set.
fn bit(n: u32) -> u32
    requires { n < 32 }
    ensures { result ≡ 2 ^ n }
{
    1 << n
}

// The lowest line that waits and is let in, if there is one. At pass n bit n of both stands last.
pub fn lowest(lines: Lines) -> Option<u32>
    ensures { says_due result ≡ lowest_due lines }
{
    let mut waiting = lines.waiting;
    let mut mask = lines.mask;
    for n in 1..LAST + 1 {
        waiting = waiting / 2;
        mask = mask / 2;
        if waiting % 2 + mask % 2 == 2 {
            return Some(n);
        }
    }
    None
}

// None enters while a routine is in progress, and none without room.
pub fn entering(lines: Lines, r: usize, s: usize) -> Option<u32>
    ensures { says_due result ≡ entering_with lines r s }
{
    // first, for it is so nearly always
    if lines.waiting == 0 {
        return None;
    }
    if lines.block != 0 {
        return None;
    }
    if Machine::RETURNS <= r {
        return None;
    }
    if Machine::SUBROUTINES <= s {
        return None;
    }
    lowest(lines)
}

// A number less this bit, and 0 where it is less than that.
fn without(waiting: u32, n: u32) -> u32
    ensures { result ≡ waiting - 2 ^ n }
{
    if 31 < n {
        return 0;
    }
    let power = bit(n);
    if waiting < power {
        return 0;
    }
    waiting - power
}

// Line n has entered: its request is cleared, and the block set.
pub fn serving(lines: Lines, n: u32) -> Lines
    ensures { result ≡ serving n lines }
{
    let waiting = without(lines.waiting, n);
    Lines {
        mask: lines.mask,
        waiting,
        block: 1,
    }
}

// The requests that wait once this line is raised. Twice is once. A number that is no line's is refused.
pub fn raise(waiting: u32, line: u64) -> Result<u32, Refusal>
    ensures { says result ≡ raised_by line waiting }
{
    if line < 1 {
        return Err(Refusal::NotAsAsked);
    }
    if (LAST as u64) < line {
        return Err(Refusal::NotAsAsked);
    }
    let power = bit(line as u32);
    if waiting / power % 2 == 1 {
        return Ok(waiting);
    }
    Ok(waiting + power)
}
