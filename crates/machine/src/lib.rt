// The machine of document 01: its state, its two counters and its cycle table.
// What it does is defined in specs/ (Step.antt, Run.antt); the crate run carries it out.
#![tactic(auto)]

mod costs;
mod refusal;
mod state;
mod turns;

pub use costs::CYCLES;
use links::Links;
pub use refusal::Refusal;

// The state: the parameter stack with its depth P, the three linked stacks, the program counter, the extend flag, where it was last
// thrown, and the interrupt lines.
#[derive(Clone, Copy)]
pub struct Machine {
    pub cells: [u32; Machine::CELLS],
    pub p: usize,
    pub links: Links,
    pub counter: u32,
    pub flag: u32,
    pub thrown: LastThrow,
    pub lines: Lines,
}

// The last THROW of non-zero that was carried out: its own address, and the number thrown.
#[derive(Clone, Copy)]
pub struct LastThrow {
    pub address: u32,
    pub code: u32,
}

// The interrupt lines: those that are let in and those that wait, a bit a line, and whether a routine is in progress, 0 or 1.
#[derive(Clone, Copy)]
pub struct Lines {
    pub mask: u32,
    pub waiting: u32,
    pub block: u32,
}

// Completed instructions. Steps and cycles are two counters: neither can be added to the other or passed for it.
#[derive(Clone, Copy)]
pub struct Steps(pub u32);

// The manual's clock cycles.
#[derive(Clone, Copy)]
pub struct Cycles(pub u32);

// What a run answers, the instructions that it completed, the cycles that they took, and the machine that it leaves. The answer is a number
// and no enum: 0 and 1 refuse nothing, and a report takes every number.
#[derive(Clone, Copy)]
pub struct Ran {
    pub answer: u32,
    pub steps: Steps,
    pub cycles: Cycles,
    pub machine: Machine,
}

// Who may touch which byte of memory: those below `shared`, and those from `own` to before `end`.
#[derive(Clone, Copy)]
pub struct Reach {
    pub shared: usize,
    pub own: usize,
    pub end: usize,
}

// Four tasks: a machine for each, and the number that it keeps: that it is ready, or the answer with which it left. A host may hand in any
// number, and a run of tasks refuses a bad one.
#[derive(Clone, Copy)]
pub struct Tasks {
    pub machines: [Machine; Tasks::COUNT],
    pub kept: [usize; Tasks::COUNT],
}

// What a run of tasks answers, the steps and the cycles of all of them, and the tasks that it leaves.
#[derive(Clone, Copy)]
pub struct RanTasks {
    pub answer: u32,
    pub steps: Steps,
    pub cycles: Cycles,
    pub tasks: Tasks,
}

// How wide a memory access is.
#[derive(Clone, Copy)]
pub enum Width {
    Byte,
    Word,
    Long,
}

// Where an access lies: in memory from this address; in view from this byte of the cells in view; or nowhere.
#[derive(Clone, Copy)]
pub enum Place {
    Memory(usize),
    View(usize),
    Nowhere,
}
