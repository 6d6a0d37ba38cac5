// A run of tasks: the next ready task has its turn, and then the next.
ghost use Rattle.std.specs.Prelude.{◌≡◌, true, ◌<◌, ◌≤◌, List, ℕ, leb};
ghost use Rattle.std.proofs.Math.ListN as list;
ghost use Rattle.plain.specs.Choice.{both};
ghost use Rattle.machine.specs.Limits.{most_sum, tasks_count};
ghost use Rattle.machine.specs.Sum.{sum_after, sum_of};
ghost use Rattle.machine.specs.Reach.{task};
ghost use Rattle.machine.specs.Tasks.{start_of, tasks_acceptable, tasks_in, tasks_after_of, TurnsFrom, AllWhole};
ghost use Rattle.run_words.specs.Promises.{Bounded};
ghost use Rattle.run_words.specs.Clocks.{ran_tasks_of, LinedTask};
ghost use Rattle.run_words.specs.Levels.{machines_in, losses_in, AllLaid, HeedsSame, Seats};

use crate::{Counted, ticks};
use machine::{Cycles, Machine, RanTasks, Reach, Refusal, Steps, Tasks};
use run_entry::{formed, served};
use run_levels::{linked, parts, sums, taskrows};
use run_loop::round;
use run_words::{Clock, Pointers};

// Task t may touch the shared bytes and its own part.
fn reach_of(t: usize) -> Reach
    requires { t < tasks_count }
    ensures { (result ≡ task t) × Bounded result }
{
    let own = Tasks::SHARED + Tasks::PART * t;
    Reach {
        shared: Tasks::SHARED,
        own,
        end: own + Tasks::PART,
    }
}

// The task whose turns start with a test for lines: task 0 where one might enter, else none.
fn lined_task(rows: &mut [[u32; linked::ROW]; linked::ROWS]) -> usize
    ensures { LinedTask rows.old rows.new result }
{
    if served::attend(rows) {
        return 0;
    }
    Tasks::COUNT
}

pub(crate) fn ended(answer: u32, steps: Steps, cycles: Cycles, tasks: Tasks) -> RanTasks
    ensures { result ≡ ran_tasks_of answer steps cycles tasks }
{
    RanTasks {
        answer,
        steps,
        cycles,
        tasks,
    }
}

pub(crate) fn refused() -> Counted
    ensures { result ≡ record { answer = 2; steps = record { 0 = 0 }; cycles = record { 0 = 0 } } }
{
    Counted {
        answer: Refusal::NotAsAsked as u32,
        steps: Steps(0),
        cycles: Cycles(0),
    }
}

fn acceptable_four(length: usize, four: Tasks, quantum: u32, budget: u32, sum: u64) -> bool
    ensures { (((mem : List ℕ) → list.length mem ≡ length → result ≡ both (leb sum most_sum) (tasks_acceptable mem (tasks_in four) quantum budget)) × (result ≡ true → AllWhole (tasks_in four))) × ((list.length four.machines ≡ tasks_count) × (list.length four.kept ≡ tasks_count)) }
{
    formed::tasks_acceptable(length, four, quantum, budget, sum)
}

// The tasks are the caller's own, and what copies of them the compiler makes stand in functions of their own: while they run there are no
// second four on the stack (docs/DECISIONS.md).
pub(crate) fn acceptable(length: usize, four: &Tasks, quantum: u32, budget: u32, sum: u64) -> bool
    ensures { (((mem : List ℕ) → list.length mem ≡ length → result ≡ both (leb sum most_sum) (tasks_acceptable mem (tasks_in four.now) quantum budget)) × (result ≡ true → AllWhole (tasks_in four.now))) × ((list.length four.now.machines ≡ tasks_count) × (list.length four.now.kept ≡ tasks_count)) }
{
    acceptable_four(length, *four, quantum, budget, sum)
}

fn apart(
    four: &Tasks,
    cells: &mut [[u32; Machine::CELLS]; Tasks::COUNT],
    returns: &mut [[u32; Machine::RETURNS]; Tasks::COUNT],
    rows: &mut [[[u32; linked::ROW]; linked::ROWS]; Tasks::COUNT],
    copies: &mut [[usize; linked::COPIES]; Tasks::COUNT],
) -> [Pointers; Tasks::COUNT]
    requires { ((list.length cells.old ≡ tasks_count) × (list.length returns.old ≡ tasks_count)) × AllLaid rows.old copies.old }
    ensures { Seats cells.new returns.new rows.new copies.new result × ((machines_in cells.new returns.new rows.new copies.new result ≡ four.now.machines) × ((sum_of (losses_in rows.new) ≡ sum_of (losses_in rows.old)) × HeedsSame rows.old rows.new)) }
{
    taskrows::apart(four.machines, cells, returns, rows, copies)
}

fn put_back(
    four: &mut Tasks,
    cells: &[[u32; Machine::CELLS]; Tasks::COUNT],
    returns: &[[u32; Machine::RETURNS]; Tasks::COUNT],
    rows: &[[[u32; linked::ROW]; linked::ROWS]; Tasks::COUNT],
    copies: &[[usize; linked::COPIES]; Tasks::COUNT],
    saved: [Pointers; Tasks::COUNT],
    kept: [usize; Tasks::COUNT],
)
    requires { AllLaid rows.now copies.now }
    ensures { four.new ≡ record { machines = machines_in cells.now returns.now rows.now copies.now saved; kept = kept } }
{
    four.machines = taskrows::whole(cells, returns, rows, copies, saved);
    four.kept = kept;
}

pub(crate) fn turns(
    mem: &mut [u8],
    tasks: &mut Tasks,
    quantum: u32,
    budget: u32,
    sum: &mut u64,
) -> Counted
    requires { ((tasks_acceptable mem.old (tasks_in tasks.old) quantum budget ≡ true) × (AllWhole (tasks_in tasks.old) × (sum.old ≤ most_sum))) × ((list.length tasks.old.machines ≡ tasks_count) × (list.length tasks.old.kept ≡ tasks_count)) }
    ensures { TurnsFrom quantum (start_of mem.old (tasks_in tasks.old) budget) (tasks_after_of mem.new (ran_tasks_of result.answer result.steps result.cycles tasks.new)) × (sum.new ≡ sum_after sum.old mem.old mem.new) }
{
    let mut kept = tasks.kept;
    let mut cells = [[0u32; Machine::CELLS]; Tasks::COUNT];
    let mut returns = [[0u32; Machine::RETURNS]; Tasks::COUNT];
    let mut rows = [[[0u32; linked::ROW]; linked::ROWS]; Tasks::COUNT];
    let mut copies = [[0usize; linked::COPIES]; Tasks::COUNT];
    let mut saved = apart(tasks, &mut cells, &mut returns, &mut rows, &mut copies);
    let mut clock = Clock {
        from: 0,
        left: Steps(budget),
        unspent: Steps(0),
        cycles: Cycles(0),
        answer: 1,
    };
    let lined = lined_task(&mut rows[0]);
    let most = ticks::some(quantum);
    let mut rests = [0u32; Tasks::COUNT];
    // asked for at a turn's end, so that the compiler does not ask every task beforehand
    let mut next = order::next_ready(&kept, clock.from);
    while 0 < clock.left.0 {
        let Some(t) = next else {
            clock = ticks::idle(clock);
            continue;
        };
        let mut length = ticks::turn_length(most, clock.left.0);
        if t == lined {
            length = ticks::opened(rests[t], most, clock.left.0);
            rests[t] = 0;
            saved[t] = served::let_in(&mut returns[t], &mut rows[t], &mut copies[t], saved[t]);
        }
        let after = round::rounds(
            mem,
            &mut cells[t],
            &mut returns[t],
            &mut rows[t],
            &mut copies[t],
            saved[t],
            length,
            reach_of(t),
            true,
            true,
        );
        saved[t] = parts::left_in(after);
        let from = ticks::closed(
            &mut kept,
            &mut rests,
            t,
            after.answer,
            after.again,
            after.unspent.0,
        );
        let cycles = after.cycles;
        clock = ticks::turned(clock, from, Steps(length - after.unspent.0), cycles);
        next = order::next_ready(&kept, clock.from);
    }
    *sum = sums::less(*sum, sums::lost_by_all(&rows));
    put_back(tasks, &cells, &returns, &rows, &copies, saved, kept);
    Counted {
        answer: clock.answer,
        steps: Steps(budget - clock.unspent.0),
        cycles: clock.cycles,
    }
}
