// A run of one machine, whose arrays are this run's own.
ghost use Rattle.std.specs.Prelude.{◌≡◌, true, false, List, ℕ, ◌-◌, ◌≤◌};
ghost use Rattle.machine.specs.Limits.{most_sum};
ghost use Rattle.machine.specs.Sum.{sum_after};
ghost use Rattle.machine.specs.Reach.{alone};
ghost use Rattle.machine.specs.Run.{acceptable, by_itself, run_from, after_of};
ghost use Rattle.machine.specs.Run as run;
ghost use Rattle.run_words.specs.Machines.{ran_of};
ghost use Rattle.run_words.specs.Registers.{machine_in};
ghost use Rattle.run_words.specs.Levels.{frames_in, levels_in, note_in, in_rows, pointers_of, Laid, Hold};
ghost use Rattle.run_words.specs.Notes.{with_thrown, with_lines};
ghost use Rattle.machine.specs.State.{fresh_with, well_formed, Whole};

use crate::Counted;
use machine::{Cycles, Machine, Ran, Reach, Refusal, Steps};
use run_entry::{formed, served};
use run_levels::{linked, parts, sums};
use run_loop::round;
use run_words::{Pointers, Registers};

// A machine that is alone may touch all of memory.
const ALONE: Reach = Reach {
    shared: Machine::MEMORY,
    own: 0,
    end: 0,
};

pub(crate) fn ended(answer: u32, steps: Steps, cycles: Cycles, machine: Machine) -> Ran
    ensures { result ≡ ran_of answer steps cycles machine }
{
    Ran {
        answer,
        steps,
        cycles,
        machine,
    }
}

pub(crate) fn refused() -> Counted
    ensures { result ≡ record { answer = 2; steps = record { 0 = 0 }; cycles = record { 0 = 0 } } }
{
    Counted {
        answer: Refusal::NotAsAsked as u32,
        steps: Steps(0),
        cycles: Cycles(0),
    }
}

// The fresh machine with these parameter cells, refused.
pub(crate) fn declined(cells: [u32; Machine::CELLS], p: usize) -> Ran
    ensures { result ≡ ran_of 2 (record { 0 = 0 }) (record { 0 = 0 }) (fresh_with cells p) }
{
    let mut machine = Machine::fresh();
    machine.cells = cells;
    machine.p = p;
    ended(Refusal::NotAsAsked as u32, Steps(0), Cycles(0), machine)
}

// What a run hands back of its own arrays and registers.
fn finished(
    cells: &[u32; Machine::CELLS],
    returns: &[u32; Machine::RETURNS],
    rows: &[[u32; linked::ROW]; linked::ROWS],
    copies: &[usize; linked::COPIES],
    regs: Registers,
    budget: u32,
) -> Ran
    requires { (regs.unspent.0 ≤ budget) × Laid rows.now copies.now }
    ensures { (mem : List ℕ) → after_of mem result ≡ run.ended regs.answer mem (machine_in cells.now returns.now (frames_in rows.now copies.now) (levels_in rows.now copies.now) (note_in rows.now).aside regs) (budget - regs.unspent.0) regs.cycles.0 }
{
    let machine = parts::whole(cells, returns, rows, copies, parts::left_in(regs));
    let cycles = regs.cycles;
    ended(regs.answer, Steps(budget - regs.unspent.0), cycles, machine)
}

// The machine is the caller's own, and what copies of it the compiler makes stand in functions of their own: while it runs there is no second
// one on the stack (docs/DECISIONS.md).
pub(crate) fn is_formed(machine: &Machine) -> bool
    ensures { result ≡ well_formed machine.now }
{
    formed::well_formed(*machine)
}

fn apart(
    machine: &Machine,
    rows: &mut [[u32; linked::ROW]; linked::ROWS],
    copies: &mut [usize; linked::COPIES],
)
    requires { Laid rows.old copies.old }
    ensures { Hold rows.new copies.new machine.now.links.frames machine.now.links.levels (with_lines machine.now.lines (with_thrown machine.now.thrown (note_in rows.old))) }
{
    let links = machine.links;
    let thrown = machine.thrown;
    let lines = machine.lines;
    parts::apart(links, thrown, lines, rows, copies);
}

fn pointers(machine: Machine) -> Pointers
    ensures { (result ≡ pointers_of machine) × Whole machine }
{
    parts::pointers(machine)
}

fn begun(machine: &Machine) -> Pointers
    ensures { (result ≡ pointers_of machine.now) × Whole machine.now }
{
    pointers(*machine)
}

fn put_back(
    machine: &mut Machine,
    cells: &[u32; Machine::CELLS],
    returns: &[u32; Machine::RETURNS],
    rows: &[[u32; linked::ROW]; linked::ROWS],
    copies: &[usize; linked::COPIES],
    at: Pointers,
)
    requires { Laid rows.now copies.now }
    ensures { machine.new ≡ in_rows cells.now returns.now rows.now copies.now at }
{
    *machine = parts::whole(cells, returns, rows, copies, at);
}

pub(crate) fn any(mem: &mut [u8], machine: &mut Machine, budget: u32, sum: &mut u64) -> Counted
    requires { (acceptable mem.old machine.old budget ≡ true) × (sum.old ≤ most_sum) }
    ensures { (after_of mem.new (ran_of result.answer result.steps result.cycles machine.new) ≡ run_from alone by_itself budget mem.old machine.old 0 0) × (sum.new ≡ sum_after sum.old mem.old mem.new) }
{
    let mut cells = machine.cells;
    let mut returns = machine.links.returns;
    let mut rows = [[0u32; linked::ROW]; linked::ROWS];
    let mut copies = [0usize; linked::COPIES];
    apart(machine, &mut rows, &mut copies);
    let start = begun(machine);
    let regs = served::served(
        mem,
        &mut cells,
        &mut returns,
        &mut rows,
        &mut copies,
        start,
        budget,
        ALONE,
    );
    *sum = sums::less(*sum, linked::lost(&rows));
    put_back(
        machine,
        &cells,
        &returns,
        &rows,
        &copies,
        parts::left_in(regs),
    );
    Counted {
        answer: regs.answer,
        steps: Steps(budget - regs.unspent.0),
        cycles: regs.cycles,
    }
}

// Where all links are fresh, so are the rows: nothing is taken apart, and no line waits.
pub(crate) fn fresh(mem: &mut [u8], filled: [u32; Machine::CELLS], p: usize, budget: u32) -> Ran
    requires { acceptable mem.old (fresh_with filled p) budget ≡ true }
    ensures { after_of mem.new result ≡ run_from alone by_itself budget mem.old (fresh_with filled p) 0 0 }
{
    let mut cells = filled;
    let mut returns = [0u32; Machine::RETURNS];
    let mut rows = [[0u32; linked::ROW]; linked::ROWS];
    let mut copies = [0usize; linked::COPIES];
    let start = Pointers {
        p,
        r: 0,
        s: 0,
        e: 0,
        counter: 0,
        flag: 0,
    };
    let regs = round::rounds(
        mem,
        &mut cells,
        &mut returns,
        &mut rows,
        &mut copies,
        start,
        budget,
        ALONE,
        false,
        false,
    );
    finished(&cells, &returns, &rows, &copies, regs, budget)
}
