// Clock cycles by code.
ghost use Rattle.std.specs.Prelude.{◌≡◌, ◌≤◌};
ghost use Rattle.machine.specs.Codes.{cycles_of};

use machine::CYCLES;

// Codes 00 to 3D have entries.
const LISTED: usize = 62;

pub fn price(code: u8) -> u32
    ensures { (result ≡ cycles_of code) × (result ≤ 42) }
{
    let entry = code as usize;
    if entry < LISTED {
        return CYCLES[entry];
    }
    if 0x7F < code {
        return 2;
    }
    1
}
