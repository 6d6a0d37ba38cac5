// Answer 2 by direct calls: everything that a run may be handed and has to refuse, and calls that it takes.
#![tactic(auto)]

mod states;
mod telling;

ghost use Rattle.std.specs.Prelude.{◌<◌, ◌^◌};

use machine::Machine;
use std::io;

// ZERO ZERO STORE.L, then ZERO all over: three steps alter the state and the memory. The store clears bytes 0 to 3, so that
// the fourth instruction is NOP, and ZERO is refused once P is 64.
const ZERO: u8 = 0x20;

const STORE: u8 = 0x2E;

// What the bytes of that memory add up to; the store takes 142 off.
const SUM: u64 = 1048590;

// Whether the memory is as it was handed in.
fn is_as_made(memory: &[u8]) -> bool {
    memory
        .iter()
        .enumerate()
        .all(|(i, &byte)| byte == if i == 2 { STORE } else { ZERO })
}

// One call, and what came of it. States are compared as their bytes.
fn knock(
    rt: &impl Print,
    name: &str,
    memory: &mut [u8],
    machine: Machine,
    budget: u32,
    sum: u64,
) -> io::Result<()> {
    let mut before = [0u8; state::SIZE];
    let mut after = [0u8; state::SIZE];
    state::give(machine, &mut before).unwrap();
    let mut kept = sum;
    let ran = run::run(memory, machine, budget, &mut kept);
    let left = ran.machine;
    let steps = ran.steps;
    let cycles = ran.cycles;
    state::give(left, &mut after).unwrap();
    telling::numbers(rt, name, ran.answer, steps, cycles)?;
    telling::kept(rt, ", state ", before == after)?;
    telling::kept(rt, ", memory ", is_as_made(memory))?;
    telling::sum(rt, kept)?;
    telling::end(rt)
}

fn with_memory<const BYTES: usize>(
    rt: &impl Print,
    name: &str,
    machine: Machine,
    budget: u32,
    sum: u64,
) -> io::Result<()>
    requires { (2 < BYTES) × (BYTES < 2 ^ 63) }
{
    let mut memory = [ZERO; BYTES];
    memory[2] = STORE;
    knock(rt, name, &mut memory, machine, budget, sum)
}

fn with_budget(rt: &impl Print, name: &str, budget: u32) -> io::Result<()> {
    with_memory::<{ Machine::MEMORY }>(rt, name, Machine::fresh(), budget, SUM)
}

fn with_sum(rt: &impl Print, name: &str, sum: u64) -> io::Result<()> {
    with_memory::<{ Machine::MEMORY }>(rt, name, Machine::fresh(), 3, sum)
}

fn with_state(rt: &impl Print, name: &str, machine: Machine) -> io::Result<()> {
    with_memory::<{ Machine::MEMORY }>(rt, name, machine, 3, SUM)
}

fn main(rt: HostRuntime) -> io::Result<()> {
    with_state(&rt, "fresh", Machine::fresh())?;
    with_state(&rt, "nested", states::nested([1, 2, 3], [1, 2], 63))?;
    with_state(
        &rt,
        "last throw 4294967295",
        states::noting(0xFFFFFFFF, 0xFFFFFFFF),
    )?;
    with_budget(&rt, "budget 1000000", 1000000)?;
    with_budget(&rt, "budget 1000001", 1000001)?;
    with_sum(&rt, "sum 8355840", 8355840)?;
    with_sum(&rt, "sum 8355841", 8355841)?;
    with_sum(&rt, "sum 0", 0)?;
    with_sum(&rt, "a sum that 32 bits do not hold", 0x100000000 + SUM)?;
    with_memory::<32767>(&rt, "memory of 32767", Machine::fresh(), 3, SUM)?;
    with_memory::<32769>(&rt, "memory of 32769", Machine::fresh(), 3, SUM)?;
    with_state(&rt, "P 65", states::pointing(65, 0, 0, 0, 0))?;
    with_state(&rt, "R 65", states::pointing(0, 65, 0, 0, 0))?;
    with_state(&rt, "S 33", states::pointing(0, 0, 33, 0, 0))?;
    with_state(&rt, "E 9", states::pointing(0, 0, 0, 9, 0))?;
    with_state(&rt, "flag 2", states::pointing(0, 0, 0, 0, 2))?;
    with_state(
        &rt,
        "copies of R equal",
        states::nested([1, 1, 3], [1, 2], 63),
    )?;
    with_state(
        &rt,
        "copies of R falling",
        states::nested([2, 1, 3], [1, 2], 63),
    )?;
    with_state(
        &rt,
        "last copy of R not below R",
        states::nested([1, 2, 4], [1, 2], 63),
    )?;
    with_state(
        &rt,
        "copies of S equal",
        states::nested([1, 2, 3], [1, 1], 63),
    )?;
    with_state(
        &rt,
        "copies of S falling",
        states::nested([1, 2, 3], [2, 1], 63),
    )?;
    with_state(
        &rt,
        "last copy of S not below S",
        states::nested([1, 2, 3], [1, 3], 63),
    )?;
    with_state(&rt, "copy of P 64", states::nested([1, 2, 3], [1, 2], 64))?;
    with_state(&rt, "mask 65535", states::lined(0xFFFF, 0, 0))?;
    with_state(&rt, "mask 65536", states::lined(0x10000, 0, 0))?;
    with_state(&rt, "waiting 65534", states::lined(0, 0xFFFE, 0))?;
    with_state(&rt, "line 0 waiting", states::lined(0, 1, 0))?;
    with_state(&rt, "waiting 65536", states::lined(0, 0x10000, 0))?;
    with_state(&rt, "block 1", states::lined(0xFFFF, 0xFFFE, 1))?;
    with_state(&rt, "block 2", states::lined(0, 0, 2))?;
    Ok(())
}
