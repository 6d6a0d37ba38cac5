// Whose turn it is.
#![tactic(auto)]

ghost use Rattle.std.specs.Prelude.{◌≡◌, ◌+◌, ◌%◌};
ghost use Rattle.machine.specs.Limits.{tasks_count};
ghost use Rattle.machine.specs.Tasks.{in_order, following};
ghost use Rattle.order.specs.Order.{first_kept, says_next};

use machine::Tasks;

// After the last task comes the first.
pub fn after(t: usize) -> usize
    ensures { result ≡ following (t % tasks_count) }
{
    (t % Tasks::COUNT + 1) % Tasks::COUNT
}

// The next task in circular order that is ready, by the numbers that the tasks keep: none, where none is.
pub fn next_ready(kept: &[usize; Tasks::COUNT], from: usize) -> Option<usize>
    ensures { says_next result ≡ first_kept kept.now (in_order tasks_count (from % tasks_count)) }
{
    let first = from % Tasks::COUNT;
    if kept[first] == Tasks::READY {
        return Some(first);
    }
    let second = after(first);
    if kept[second] == Tasks::READY {
        return Some(second);
    }
    let third = after(second);
    if kept[third] == Tasks::READY {
        return Some(third);
    }
    let fourth = after(third);
    if kept[fourth] == Tasks::READY {
        return Some(fourth);
    }
    None
}
