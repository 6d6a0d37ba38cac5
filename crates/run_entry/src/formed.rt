// Whether a state is well formed.
ghost use Rattle.std.specs.Prelude.{◌≡◌, true, List, ℕ, leb};
ghost use Rattle.std.proofs.Math.ListN as list;
ghost use Rattle.plain.specs.Choice.{both};
ghost use Rattle.machine.specs.Limits.{most_sum};
ghost use Rattle.machine.specs.Lines.{lines_formed};
ghost use Rattle.machine.specs.State.{well_formed, Whole};
ghost use Rattle.machine.specs.Tasks.{task_of, tasks_in, can_keep, task_good, all_good, AllWhole, tasks_acceptable};

use machine::{Lines, Machine, Tasks};

// Mask and waiting requests are of 16 bits, nothing waits on line 0, and the block is 0 or 1.
fn lines_formed(lines: Lines) -> bool
    ensures { result ≡ lines_formed lines }
{
    if 65536 <= lines.mask {
        return false;
    }
    if 65536 <= lines.waiting {
        return false;
    }
    if lines.waiting % 2 == 0 {
        return lines.block <= 1;
    }
    false
}

pub fn well_formed(machine: Machine) -> bool
    ensures { result ≡ well_formed machine }
{
    if Machine::CELLS < machine.p {
        return false;
    }
    if 1 < machine.flag {
        return false;
    }
    let lines = machine.lines;
    if lines_formed(lines) {
        let links = machine.links;
        return links::well_formed(links);
    }
    false
}

// Ready, or an answer with which a task can leave.
fn can_keep(number: usize) -> bool
    ensures { result ≡ can_keep number }
{
    if number <= 1 {
        return true;
    }
    if 16 <= number {
        return number <= 17;
    }
    if number < 3 {
        return false;
    }
    number <= 13
}

fn task(machine: Machine, kept: usize) -> bool
    ensures { (result ≡ task_good (task_of machine kept)) × Whole machine }
{
    if well_formed(machine) {
        return can_keep(kept);
    }
    false
}

// All four, ready or not.
fn tasks(tasks: Tasks) -> bool
    ensures { (result ≡ all_good (tasks_in tasks)) × (result ≡ true → AllWhole (tasks_in tasks)) }
{
    let machines = tasks.machines;
    let kept = tasks.kept;
    if task(machines[0], kept[0]) {
        if task(machines[1], kept[1]) {
            if task(machines[2], kept[2]) {
                return task(machines[3], kept[3]);
            }
        }
    }
    false
}

// What a run of tasks takes, in one function, so that one way leads to the refusal: with a way for each test the compiler keeps more
// at hand in every turn.
pub fn tasks_acceptable(length: usize, four: Tasks, quantum: u32, budget: u32, sum: u64) -> bool
    ensures { ((mem : List ℕ) → list.length mem ≡ length → result ≡ both (leb sum most_sum) (tasks_acceptable mem (tasks_in four) quantum budget)) × (result ≡ true → AllWhole (tasks_in four)) }
{
    if Machine::SUM < sum {
        return false;
    }
    if length != Machine::MEMORY {
        return false;
    }
    if Machine::BUDGET < budget {
        return false;
    }
    if quantum < 1 {
        return false;
    }
    if Tasks::QUANTUM < quantum {
        return false;
    }
    tasks(four)
}
