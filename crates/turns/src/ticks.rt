// What a run of tasks counts between two turns.
ghost use Rattle.std.specs.Prelude.{◌≡◌, true, ◌+◌, ◌*◌, ◌<◌, ◌≤◌, get_or};
ghost use Rattle.machine.specs.Limits.{most_budget, tasks_count};
ghost use Rattle.machine.specs.Tasks.{ready, turn_length};
ghost use Rattle.run_words.specs.Clocks.{turned_to, idled_to, passed_to, rest_or, Closes};

use machine::{Cycles, Steps, Tasks};
use run_words::Clock;

// A turn has at most the quantum, and at most what is left of the budget.
pub(crate) fn turn_length(quantum: u32, left: u32) -> u32
    ensures { result ≡ turn_length quantum left }
{
    quantum.min(left)
}

// No turn is without a step. The compiler sees it, and spares a test in every turn (docs/SPEED.md).
pub(crate) fn some(length: u32) -> u32
    requires { 1 ≤ length }
    ensures { result ≡ length }
{
    length.max(1)
}

// So many steps and cycles were taken, and this task is asked first.
pub(crate) fn turned(clock: Clock, from: usize, steps: Steps, cycles: Cycles) -> Clock
    requires { (steps.0 ≤ clock.left.0) × (clock.cycles.0 + cycles.0 ≤ 42 * most_budget) }
    ensures { result ≡ turned_to clock from steps.0 cycles.0 }
{
    let mut after = clock;
    let left = Steps(clock.left.0 - steps.0);
    let more = Cycles(clock.cycles.0 + cycles.0);
    after.from = from;
    after.left = left;
    after.cycles = more;
    after
}

// The task that is asked after one that has so much left of its turn.
fn passed(t: usize, rest: u32) -> usize
    requires { t < tasks_count }
    ensures { result ≡ passed_to t rest }
{
    if rest == 0 {
        return order::after(t);
    }
    t
}

// How long a turn is that may be the rest of one.
pub(crate) fn opened(rest: u32, most: u32, left: u32) -> u32
    requires { (1 ≤ most) × (1 ≤ left) }
    ensures { result ≡ turn_length (rest_or rest most) left }
{
    if rest == 0 {
        return some(turn_length(most, left));
    }
    some(turn_length(rest, left))
}

// A turn is over, and its task keeps the answer; or it goes on, and what is left of it is kept. Which task is asked next. One that can go
// on keeps the number that it has: the store is spared, and nothing else is asked.
pub(crate) fn closed(
    kept: &mut [usize; Tasks::COUNT],
    rests: &mut [u32; Tasks::COUNT],
    t: usize,
    answer: u32,
    again: bool,
    unspent: u32,
) -> usize
    requires { (t < tasks_count) × ((get_or kept.old t 0 ≡ ready) × (again ≡ true → answer ≡ 0)) }
    ensures { Closes kept.old rests.old t answer again unspent kept.new rests.new result }
{
    let number = answer as usize;
    if number == Tasks::READY {
        return order::after(t);
    }
    if again {
        rests[t] = unspent;
        return passed(t, unspent);
    }
    kept[t] = number;
    order::after(t)
}

// No task is ready: nothing is left to spend, and what was not spent is kept.
pub(crate) fn idle(clock: Clock) -> Clock
    ensures { result ≡ idled_to clock }
{
    let mut after = clock;
    let nothing = Steps(0);
    let unspent = clock.left;
    after.answer = 0;
    after.unspent = unspent;
    after.left = nothing;
    after
}
