// The first byte that may not be touched.
ghost use Rattle.std.specs.Prelude.{◌≡◌};
ghost use Rattle.machine.specs.Reach.{bar_of, is_foreign};
ghost use Rattle.reach.specs.Bars.{says_barred, past_shared, past_own};

use crate::Bar;
use machine::{Machine, Reach};

fn past_shared(reach: Reach, at: usize) -> usize
    ensures { result ≡ past_shared reach at }
{
    if at < reach.shared {
        return reach.shared;
    }
    at
}

fn past_own(reach: Reach, at: usize) -> usize
    ensures { result ≡ past_own reach at }
{
    if at < reach.own {
        return at;
    }
    if at < reach.end {
        return reach.end;
    }
    at
}

// So many bytes from an address, each tested before the next: the first that may not be touched is outside memory, or is in another's part.
pub fn barred(reach: Reach, address: u32, size: u8) -> Option<Bar>
    ensures { says_barred result ≡ bar_of reach address size }
{
    if size == 0 {
        return None;
    }
    let at = address as usize;
    let end = at + size as usize;
    let beyond = past_own(reach, past_shared(reach, at));
    if beyond < end {
        if beyond < Machine::MEMORY {
            return Some(Bar::Foreign);
        }
        return Some(Bar::Outside);
    }
    if Machine::MEMORY < end {
        return Some(Bar::Outside);
    }
    None
}

// A name for the comparison, since contracts and a theorem speak of it.
pub fn is_foreign(bar: Option<Bar>) -> bool
    ensures { result ≡ is_foreign (says_barred bar) }
{
    bar == Some(Bar::Foreign)
}
