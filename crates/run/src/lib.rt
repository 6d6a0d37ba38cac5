// The run: instructions carried out one after another under a budget, proved to be what the machine's definition says.
#![tactic(auto)]

mod alone;

ghost use Rattle.std.specs.Prelude.{◌≡◌};
ghost use Rattle.machine.specs.Run.{run_of, after_of};
ghost use Rattle.machine.specs.Sum.{summed_of, run_summed};
ghost use Rattle.machine.specs.State.{fresh_with};

use machine::{Cycles, Machine, Ran, Steps};
pub use turns::{Counted, run_tasks, run_tasks_in};

// Runs a machine on a lent memory of any length, under a budget of any number of steps, with a lent memory sum. Memory of another length
// than 32,768, a budget above 1,000,000, a sum above 8,355,840 or a state that is not well formed answers 2 and alters nothing.
pub fn run(mem: &mut [u8], machine: Machine, budget: u32, sum: &mut u64) -> Ran
    ensures { summed_of (after_of mem.new result) sum.new ≡ run_summed mem.old machine budget sum.old }
{
    let mut left = machine;
    let counted = run_in(mem, &mut left, budget, sum);
    alone::ended(counted.answer, counted.steps, counted.cycles, left)
}

// The same for a machine that is lent: what the run leaves stands where it stood.
pub fn run_in(mem: &mut [u8], machine: &mut Machine, budget: u32, sum: &mut u64) -> Counted
    ensures { summed_of (after_of mem.new (record { answer = result.answer; steps = result.steps; cycles = result.cycles; machine = machine.new })) sum.new ≡ run_summed mem.old machine.old budget sum.old }
{
    if mem.len() != Machine::MEMORY {
        return alone::refused();
    }
    if Machine::BUDGET < budget {
        return alone::refused();
    }
    if Machine::SUM < *sum {
        return alone::refused();
    }
    if alone::is_formed(machine) {
        return alone::any(mem, machine, budget, sum);
    }
    alone::refused()
}

// The same for a machine that is fresh but for its parameter cells, as an image spells it, where nobody asks for the sum.
pub fn run_fresh(mem: &mut [u8], cells: [u32; Machine::CELLS], p: usize, budget: u32) -> Ran
    ensures { after_of mem.new result ≡ run_of mem.old (fresh_with cells p) budget }
{
    if mem.len() != Machine::MEMORY {
        return alone::declined(cells, p);
    }
    if Machine::BUDGET < budget {
        return alone::declined(cells, p);
    }
    if Machine::CELLS < p {
        return alone::declined(cells, p);
    }
    alone::fresh(mem, cells, p, budget)
}
