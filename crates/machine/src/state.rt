// The fresh machine, the depths of its stacks, and the limits of a run.
ghost use Rattle.std.specs.Prelude.{◌≡◌};
ghost use Rattle.machine.specs.State.{fresh_machine};

use crate::{LastThrow, Lines, Machine};
use links::Links;

impl Machine {
    // How deep each stack may grow.
    pub const CELLS: usize = Links::PARAMETERS;

    pub const RETURNS: usize = Links::RETURNS;

    pub const SUBROUTINES: usize = Links::SUBROUTINES;

    pub const EXCEPTIONS: usize = Links::EXCEPTIONS;

    // How many bytes the lent memory has, and the most steps that a budget may give.
    pub const MEMORY: usize = 32768;

    pub const BUDGET: u32 = 1000000;

    // The greatest sum that the bytes of the memory can have.
    pub const SUM: u64 = 8355840;

    // A fresh machine has every number zero.
    pub fn fresh() -> Machine
        ensures { result ≡ fresh_machine }
    {
        let links = Links::fresh();
        let cells = [0u32; Machine::CELLS];
        let thrown = LastThrow {
            address: 0,
            code: 0,
        };
        let lines = Lines {
            mask: 0,
            waiting: 0,
            block: 0,
        };
        Machine {
            cells,
            p: 0,
            links,
            counter: 0,
            flag: 0,
            thrown,
            lines,
        }
    }
}
