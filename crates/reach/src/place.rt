// Where an access lies, and whether it may be made.
ghost use Rattle.std.specs.Prelude.{◌≡◌, ◌+◌, ◌≤◌, leb};
ghost use Rattle.plain.specs.Choice.{pick, both};
ghost use Rattle.machine.specs.Limits.{memory_length};
ghost use Rattle.machine.specs.Reach.{alone};
ghost use Rattle.machine.specs.Memory.{size, view_start};
ghost use Rattle.machine.specs.declared.Reach.{Reach};
ghost use Rattle.machine.specs.declared.Place.TheVariants.{Memory, Nowhere};
ghost use Rattle.reach.specs.Spots.{width_of, view_place, allowed, spot_of, says_reached, ToldApart};

use crate::{Spot, bounds};
use machine::{Machine, Reach, Refusal};

// By the width that the code of a fetch or a store names.
fn size_of(code: u8) -> u8
    ensures { (result ≡ size (width_of code)) × (result ≤ 4) }
{
    if code < 0x2D {
        return 1;
    }
    if code < 0x2F {
        return 4;
    }
    if code < 0x31 {
        return 2;
    }
    1
}

// Bytes from here to before there lie wholly in the own part.
fn in_own(reach: Reach, at: usize, end: usize) -> bool
    ensures { result ≡ both (leb reach.own at) (leb end reach.end) }
{
    reach.own <= at && end <= reach.end
}

// An access that begins below the cells: 12 before 17.
fn in_memory(reach: Reach, code: u8, address: u32) -> Result<Spot, Refusal>
    ensures { (says_reached result ≡ allowed reach (width_of code) (pick (leb (address + size (width_of code)) memory_length) (Memory address) Nowhere)) × ToldApart reach (width_of code) result }
{
    let at = address as usize;
    let bytes = size_of(code);
    let end = at + bytes as usize;
    if Machine::MEMORY < end {
        return Err(Refusal::AccessOutside);
    }
    // before another's part: most accesses past the shared bytes are to the own ones
    if in_own(reach, at, end) {
        return Ok(Spot::Own(at));
    }
    if bounds::is_foreign(bounds::barred(reach, address, bytes)) {
        return Err(Refusal::OthersPart);
    }
    // shared, or across the seam of the shared bytes and the own ones
    Ok(Spot::Memory(at))
}

// An access that begins in view or past it. Nearly every one is to the whole of a cell.
fn in_view(code: u8, address: u32) -> Result<Spot, Refusal>
    requires { view_start ≤ address }
    ensures { (says_reached result ≡ allowed alone (width_of code) (view_place (width_of code) address)) × ((reach : Reach) → ToldApart reach (width_of code) result) }
{
    let at = address as usize;
    let bytes = size_of(code);
    if 0x10060 < at + bytes as usize {
        return Err(Refusal::AccessOutside);
    }
    if bytes < 4 {
        return Ok(Spot::View(at - 0x10000));
    }
    if at % 4 != 0 {
        return Ok(Spot::View(at - 0x10000));
    }
    if at < 0x10040 {
        return Ok(Spot::Local((at - 0x10000) / 4));
    }
    Ok(Spot::Cell((at - 0x10040) / 4))
}

// In memory, in view or refused: the one place where an access is judged.
// The width is told by the code, a number: docs/DECISIONS.md.
pub fn spot_of(reach: Reach, code: u8, address: u32) -> Result<Spot, Refusal>
    ensures { (says_reached result ≡ spot_of reach (width_of code) address) × ToldApart reach (width_of code) result }
{
    if address < 0x10000 {
        return in_memory(reach, code, address);
    }
    in_view(code, address)
}
