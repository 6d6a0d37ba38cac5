// The registers once an instruction is carried out, and once the run is over.
ghost use Rattle.std.specs.Prelude.{◌≡◌, ◌+◌, ◌*◌, ◌<◌, ◌≤◌, true, false};
ghost use Rattle.machine.specs.Limits.{most_budget};
ghost use Rattle.run_words.specs.Registers.{begun_at, counted_to, halted_at, paused_at, parted_at, joined_to};

use machine::{Cycles, Machine, Steps};
use run_words::{Pointers, Registers};

// Nothing is spent at first.
pub fn begun(start: Pointers, left: u32) -> Registers
    ensures { result ≡ begun_at start left }
{
    Registers {
        p: start.p,
        r: start.r,
        s: start.s,
        e: start.e,
        counter: start.counter,
        flag: start.flag,
        left: Steps(left),
        cycles: Cycles(0),
        answer: 1,
        unspent: Steps(0),
        again: false,
    }
}

// Whether a step is left. Where lines may enter a run of one machine, it is asked of what is left after the step: then the compiler counts
// the steps down where it asks, and the cycles up behind the instruction. Where it does both in one place it holds the two in one wide
// register, and a step takes a quarter longer. In turns, and in a run that no line can enter, the plain test is the shorter (docs/SPEED.md).
pub fn some_left(left: u32, turns: bool, lines: bool) -> bool
    requires { left ≤ most_budget }
    ensures { (result ≡ true → 0 < left) × (result ≡ false → left ≤ 0) }
{
    if turns {
        return 0 < left;
    }
    if lines {
        return left.wrapping_sub(1) < Machine::BUDGET;
    }
    left != 0
}

// One more step, and its cycles.
pub fn counted(regs: Registers, price: u32) -> Registers
    requires { (0 < regs.left.0) × ((regs.cycles.0 < 42 * most_budget) × (price ≤ 42)) }
    ensures { (result ≡ counted_to regs price) × (result.left.0 < regs.left.0) }
{
    let mut after = regs;
    let left = Steps(regs.left.0 - 1);
    let cycles = Cycles(regs.cycles.0 + price);
    after.left = left;
    after.cycles = cycles;
    after
}

// The run is over: nothing is left to spend, and what was not spent is kept.
pub fn halted(regs: Registers, answer: u32) -> Registers
    ensures { result ≡ halted_at regs answer }
{
    let mut after = regs;
    let nothing = Steps(0);
    let unspent = regs.left;
    after.answer = answer;
    after.unspent = unspent;
    after.left = nothing;
    after
}

// A PAUSE ends a turn as a spent budget does, and nothing where no turns are taken.
pub fn paused(regs: Registers, turns: bool) -> Registers
    ensures { (result ≡ paused_at regs turns) × (result.left.0 ≤ regs.left.0) }
{
    if turns {
        return halted(regs, 1);
    }
    regs
}

// A line might enter before the next instruction: the loop ends behind this one, and what is left is kept. The answer is none of a run
// that can go on, so that a caller who asks for that one first asks no more (docs/SPEED.md).
pub fn parted(regs: Registers, held: bool) -> Registers
    ensures { (result ≡ parted_at regs held) × (result.left.0 ≤ regs.left.0) }
{
    if held {
        let mut after = regs;
        let nothing = Steps(0);
        let unspent = regs.left;
        after.answer = 0;
        after.unspent = unspent;
        after.left = nothing;
        after.again = true;
        return after;
    }
    regs
}

// The loop has ended once more: the run goes on with what it left, or is over.
pub fn joined(regs: Registers, after: Registers) -> Registers
    requires { regs.cycles.0 + after.cycles.0 ≤ 42 * most_budget }
    ensures { result ≡ joined_to regs after }
{
    let mut joined = after;
    let cycles = Cycles(regs.cycles.0 + after.cycles.0);
    joined.cycles = cycles;
    if after.again {
        let left = after.unspent;
        let none = Steps(0);
        joined.answer = 1;
        joined.left = left;
        joined.unspent = none;
        joined.again = false;
    }
    joined
}
