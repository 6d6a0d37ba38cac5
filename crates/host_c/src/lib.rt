// What libhost.a exports: a run of a whole machine for hosts in other languages.
#![tactic(auto)]

ghost use Rattle.host.specs.Handed.{Hands};

// Runs a machine that a host holds as bytes, with the sum of its memory, and hands both back, the sum in the result. A call that
// answers 2 touches nothing.
#[unsafe(no_mangle)]
pub extern "C" fn glidecotton_run_state(
    state: &mut [u8],
    memory: &mut [u8],
    budget: u64,
    sum: u64,
    res: &mut [u8],
) -> u64
    ensures { let answer = result in Hands state.old memory.old budget sum res.old (record { number = answer; state = state.new; memory = memory.new; result = res.new }) }
{
    host::glidecotton_run_state(state, memory, budget, sum, res)
}
