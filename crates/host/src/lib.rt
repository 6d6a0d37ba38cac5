// A run for hosts in other languages that hold a whole machine as bytes. It stands apart from the bench job, so that each of the
// two exported functions has the run compiled into it; host_c exports it.
#![tactic(auto)]

ghost use Rattle.std.specs.Prelude.{◌≡◌, length};
ghost use Rattle.plain.specs.Answer.{gives};
ghost use Rattle.state.specs.Answered.{answered};
ghost use Rattle.state.specs.Layout as layout;
ghost use Rattle.state.specs.Promise.{Takes};
ghost use Rattle.host.specs.Handed.{Hands};

use machine::{Machine, Refusal};

// The least budget that a run refuses: one that 32 bits do not hold becomes this one.
const TOO_MUCH: u64 = Machine::BUDGET as u64 + 1;

// Runs the machine that the bytes hold. It stands apart from the reading of them, so that what is read and what a run leaves do not stand
// side by side on the stack (docs/DECISIONS.md).
fn run_taken(
    machine: &mut Machine,
    state: &mut [u8],
    memory: &mut [u8],
    budget: u64,
    sum: u64,
    res: &mut [u8],
)
    requires { Takes state.old (gives tt) machine.old × (length res.old ≡ (layout.result).width) }
    ensures { Hands state.old memory.old budget sum res.old (record { number = 0; state = state.new; memory = memory.new; result = res.new }) }
{
    let mut kept = sum;
    let most = budget.min(TOO_MUCH) as u32;
    let ran = run::run_in(memory, machine, most, &mut kept);
    // both buffers are as long as what fills them
    state::give(*machine, state).unwrap();
    state::give_counts(ran.answer, ran.steps, ran.cycles, kept, res).unwrap();
}

// Both buffers of its own are measured first, so that a call that is refused touches nothing.
fn run_state(
    state: &mut [u8],
    memory: &mut [u8],
    budget: u64,
    sum: u64,
    res: &mut [u8],
) -> Result<(), Refusal>
    ensures { Hands state.old memory.old budget sum res.old (record { number = answered result; state = state.new; memory = memory.new; result = res.new }) }
{
    if res.len() != state::RESULT {
        return Err(Refusal::NotAsAsked);
    }
    // run where it was taken to: a machine that is handed on by value stands on the stack once more (docs/DECISIONS.md)
    let mut taken = state::take(state);
    let machine = match &mut taken {
        Ok(machine) => machine,
        Err(why) => return Err(*why),
    };
    run_taken(machine, state, memory, budget, sum, res);
    Ok(())
}

// Runs a machine that a host holds as bytes, with the sum of its memory, and hands both back, the sum in the result. A call that
// answers 2 touches nothing.
pub fn glidecotton_run_state(
    state: &mut [u8],
    memory: &mut [u8],
    budget: u64,
    sum: u64,
    res: &mut [u8],
) -> u64
    ensures { let answer = result in Hands state.old memory.old budget sum res.old (record { number = answer; state = state.new; memory = memory.new; result = res.new }) }
{
    state::answered(run_state(state, memory, budget, sum, res))
}
