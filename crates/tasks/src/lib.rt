// A run of four tasks for hosts in other languages that hold them as bytes. It stands apart from the run of one machine, so that
// each exported function has the run compiled into it.
#![tactic(auto)]

ghost use Rattle.state.specs.Answered.{answered};
ghost use Rattle.tasks.specs.Handed.{HandsTasks};

use machine::{Machine, Refusal, Tasks};

// The least quantum and the least budget that a run refuses: one that 32 bits do not hold becomes this one.
const TOO_LONG: u64 = Tasks::QUANTUM as u64 + 1;

const TOO_MUCH: u64 = Machine::BUDGET as u64 + 1;

// Both buffers of its own are measured first, so that a call that is refused touches nothing.
fn run_tasks(
    tasks: &mut [u8],
    memory: &mut [u8],
    quantum: u64,
    budget: u64,
    sum: u64,
    res: &mut [u8],
) -> Result<(), Refusal>
    ensures { HandsTasks tasks.old memory.old quantum budget sum res.old (record { number = answered result; state = tasks.new; memory = memory.new; result = res.new }) }
{
    if res.len() != state::RESULT {
        return Err(Refusal::NotAsAsked);
    }
    // lent, since tasks that are handed on by value stand on the stack once more (docs/DECISIONS.md)
    let taken = state::take_tasks(tasks);
    let four = match &taken {
        Ok(four) => four,
        Err(why) => return Err(*why),
    };
    let steps = quantum.min(TOO_LONG) as u32;
    let most = budget.min(TOO_MUCH) as u32;
    let mut after = *four;
    let mut kept = sum;
    let ran = turns::run_tasks_in(memory, &mut after, steps, most, &mut kept);
    // both buffers are as long as what fills them
    state::give_tasks(after, tasks).unwrap();
    state::give_counts(ran.answer, ran.steps, ran.cycles, kept, res).unwrap();
    Ok(())
}

// Runs four tasks that a host holds as bytes, with the sum of their memory, and hands all back, the sum in the result. A call that
// answers 2 touches nothing.
pub fn glidecotton_run_tasks(
    tasks: &mut [u8],
    memory: &mut [u8],
    quantum: u64,
    budget: u64,
    sum: u64,
    res: &mut [u8],
) -> u64
    ensures { let answer = result in HandsTasks tasks.old memory.old quantum budget sum res.old (record { number = answer; state = tasks.new; memory = memory.new; result = res.new }) }
{
    state::answered(run_tasks(tasks, memory, quantum, budget, sum, res))
}
