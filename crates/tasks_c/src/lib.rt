// What libtasks.a exports: a run of four tasks for hosts in other languages.
#![tactic(auto)]

ghost use Rattle.tasks.specs.Handed.{HandsTasks};

// Runs four tasks that a host holds as bytes, with the sum of their memory, and hands all back, the sum in the result. A call that
// answers 2 touches nothing.
#[unsafe(no_mangle)]
pub extern "C" fn glidecotton_run_tasks(
    tasks: &mut [u8],
    memory: &mut [u8],
    quantum: u64,
    budget: u64,
    sum: u64,
    res: &mut [u8],
) -> u64
    ensures { let answer = result in HandsTasks tasks.old memory.old quantum budget sum res.old (record { number = answer; state = tasks.new; memory = memory.new; result = res.new }) }
{
    tasks::glidecotton_run_tasks(tasks, memory, quantum, budget, sum, res)
}
