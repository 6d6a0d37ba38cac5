// The run of four tasks, in turns, proved to be what the machine's definition says.
#![tactic(auto)]

mod ticks;
mod turns;

ghost use Rattle.machine.specs.Sum.{RunsTasksSummed};
ghost use Rattle.machine.specs.Tasks.{tasks_in, tasks_after_of};

use machine::{Cycles, RanTasks, Steps, Tasks};

// What a run counts beside what it leaves.
#[derive(Clone, Copy)]
pub struct Counted {
    pub answer: u32,
    pub steps: Steps,
    pub cycles: Cycles,
}

// Runs four tasks on a lent memory of any length, in turns of at most a quantum of steps, under a budget of any number of steps
// for all of them, with a lent memory sum that serves all. Memory of another length than 32,768, a budget above 1,000,000, a quantum that
// is not 1 to 1,000, a sum above 8,355,840, a state that is not well formed or a kept number that no task can have answers 2 and alters
// nothing.
pub fn run_tasks(mem: &mut [u8], tasks: Tasks, quantum: u32, budget: u32, sum: &mut u64) -> RanTasks
    ensures { RunsTasksSummed mem.old (tasks_in tasks) quantum budget sum.old (tasks_after_of mem.new result) sum.new }
{
    let mut left = tasks;
    let counted = run_tasks_in(mem, &mut left, quantum, budget, sum);
    turns::ended(counted.answer, counted.steps, counted.cycles, left)
}

// The same for tasks that are lent: what the run leaves stands where they stood.
pub fn run_tasks_in(
    mem: &mut [u8],
    tasks: &mut Tasks,
    quantum: u32,
    budget: u32,
    sum: &mut u64,
) -> Counted
    ensures { RunsTasksSummed mem.old (tasks_in tasks.old) quantum budget sum.old (tasks_after_of mem.new (record { answer = result.answer; steps = result.steps; cycles = result.cycles; tasks = tasks.new })) sum.new }
{
    if turns::acceptable(mem.len(), tasks, quantum, budget, *sum) {
        return turns::turns(mem, tasks, quantum, budget, sum);
    }
    turns::refused()
}
