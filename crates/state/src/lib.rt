// A whole machine as bytes, both ways, and what its run counted, with the memory sum: for hosts that hold a machine only as a buffer.
// The order of the bytes is one definition (specs/Layout.antt).
#![tactic(auto)]

mod parts;
mod places;
mod stored;
mod tasks;

ghost use Rattle.std.specs.Prelude.{◌≡◌};
ghost use Rattle.state.specs.Answered.{answered};
ghost use Rattle.state.specs.Layout as layout;
ghost use Rattle.machine.specs.Tasks.{tasks_in};
ghost use Rattle.machine.specs.Refusals.{says};
ghost use Rattle.state.specs.Promise.{says_taken, taken_machine, taken_tasks, Takes, TakesTasks, Gives};

use machine::{Cycles, Machine, Refusal, Steps, Tasks};
pub use places::{MASK, RESULT, SIZE, TASKS, WAITING};
use stored::Stored;

// Every buffer of the right length spells one machine, well formed or not: a run judges that.
pub fn take(state: &[u8]) -> Result<Machine, Refusal>
    ensures { Takes state.now (says_taken result) (taken_machine result) }
{
    if state.len() != SIZE {
        return Err(Refusal::NotAsAsked);
    }
    Ok(Machine::read(state, 0))
}

// The whole buffer is written, or nothing of it.
pub fn give(machine: Machine, state: &mut [u8]) -> Result<(), Refusal>
    ensures { Gives layout.state machine state.old (says result) state.new }
{
    if state.len() != SIZE {
        return Err(Refusal::NotAsAsked);
    }
    machine.put(state, 0);
    Ok(())
}

// Every buffer of the right length spells four tasks, acceptable or not: a run of tasks judges that.
pub fn take_tasks(bytes: &[u8]) -> Result<Tasks, Refusal>
    ensures { TakesTasks bytes.now (says_taken result) (taken_tasks result) }
{
    if bytes.len() != TASKS {
        return Err(Refusal::NotAsAsked);
    }
    Ok(tasks::read(bytes, 0))
}

// The whole buffer is written, or nothing of it.
pub fn give_tasks(tasks: Tasks, bytes: &mut [u8]) -> Result<(), Refusal>
    ensures { Gives layout.tasks (tasks_in tasks) bytes.old (says result) bytes.new }
{
    if bytes.len() != TASKS {
        return Err(Refusal::NotAsAsked);
    }
    tasks::put(bytes, 0, &tasks.machines, &tasks.kept);
    Ok(())
}

// What a run counted, and the memory sum. The whole buffer is written, or nothing of it.
pub fn give_counts(
    answer: u32,
    steps: Steps,
    cycles: Cycles,
    sum: u64,
    res: &mut [u8],
) -> Result<(), Refusal>
    ensures { Gives layout.result (record { answer = answer; steps = steps; cycles = cycles; sum = sum }) res.old (says result) res.new }
{
    if res.len() != RESULT {
        return Err(Refusal::NotAsAsked);
    }
    (answer as usize).put(res, places::RESULT_ANSWER);
    (steps.0 as usize).put(res, places::RESULT_STEPS);
    (cycles.0 as usize).put(res, places::RESULT_CYCLES);
    (sum as usize).put(res, places::RESULT_SUM);
    Ok(())
}

// The number that a host is told: 0, or the refusal's.
pub fn answered(done: Result<(), Refusal>) -> u64
    ensures { result ≡ answered done }
{
    match done {
        Ok(()) => 0,
        Err(why) => u32::from(why) as u64,
    }
}
