// Four machines taken apart, a row of each array for each task, and put together again.
ghost use Rattle.std.specs.Prelude.{◌≡◌, length};
ghost use Rattle.machine.specs.Limits.{tasks_count};
ghost use Rattle.machine.specs.Sum.{sum_of};
ghost use Rattle.run_words.specs.Levels.{machines_in, losses_in, AllLaid, HeedsSame, Seats};

use crate::{linked, parts};
use machine::{Machine, Tasks};
use run_words::Pointers;

pub fn apart(
    machines: [Machine; Tasks::COUNT],
    cells: &mut [[u32; Machine::CELLS]; Tasks::COUNT],
    returns: &mut [[u32; Machine::RETURNS]; Tasks::COUNT],
    rows: &mut [[[u32; linked::ROW]; linked::ROWS]; Tasks::COUNT],
    copies: &mut [[usize; linked::COPIES]; Tasks::COUNT],
) -> [Pointers; Tasks::COUNT]
    requires { ((length cells.old ≡ tasks_count) × (length returns.old ≡ tasks_count)) × AllLaid rows.old copies.old }
    ensures { Seats cells.new returns.new rows.new copies.new result × ((machines_in cells.new returns.new rows.new copies.new result ≡ machines) × ((sum_of (losses_in rows.new) ≡ sum_of (losses_in rows.old)) × HeedsSame rows.old rows.new)) }
{
    let saved = std::array::from_fn(|t| parts::pointers(machines[t]));
    for t in 0..Tasks::COUNT {
        let machine = machines[t];
        // An array that is a field is stored by way of a variable.
        let machine_cells = machine.cells;
        let machine_returns = machine.links.returns;
        cells[t] = machine_cells;
        returns[t] = machine_returns;
        parts::apart(
            machine.links,
            machine.thrown,
            machine.lines,
            &mut rows[t],
            &mut copies[t],
        );
    }
    saved
}

pub fn whole(
    cells: &[[u32; Machine::CELLS]; Tasks::COUNT],
    returns: &[[u32; Machine::RETURNS]; Tasks::COUNT],
    rows: &[[[u32; linked::ROW]; linked::ROWS]; Tasks::COUNT],
    copies: &[[usize; linked::COPIES]; Tasks::COUNT],
    saved: [Pointers; Tasks::COUNT],
) -> [Machine; Tasks::COUNT]
    requires { AllLaid rows.now copies.now }
    ensures { result ≡ machines_in cells.now returns.now rows.now copies.now saved }
{
    // A `for` and no `from_fn`, by which the four machines would stand twice more on the stack.
    let mut machines = [Machine::fresh(); Tasks::COUNT];
    for t in 0..Tasks::COUNT {
        machines[t] = parts::whole(&cells[t], &returns[t], &rows[t], &copies[t], saved[t]);
    }
    machines
}
