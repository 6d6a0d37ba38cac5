// Four tasks, whose machines and kept numbers stand in two arrays in the program and beside each other in the bytes.
ghost use Rattle.std.specs.Prelude.{◌+◌, ◌≤◌, length};
ghost use Rattle.machine.specs.Tasks.{task_of, paired, tasks_in, Four};
ghost use Rattle.state.specs.Layout as layout;
ghost use Rattle.state.specs.Places.{PartStands, PartPut};

use crate::places;
use crate::stored::Stored;
use machine::{Machine, Tasks};

pub(crate) fn read(state: &[u8], from: usize) -> Tasks
    requires { from + (layout.tasks).width ≤ length state.now }
    ensures { Four result × PartStands layout.tasks state.now from (tasks_in result) }
{
    let blank = Machine::fresh();
    let mut machines = [blank; Tasks::COUNT];
    let mut kept = [0usize; Tasks::COUNT];
    for i in 0..Tasks::COUNT {
        let at = from + i * places::TASK;
        machines[i] = Machine::read(state, at);
        kept[i] = usize::read(state, at + places::TASK_KEPT);
    }
    Tasks { machines, kept }
}

fn put_task(state: &mut [u8], at: usize, machine: &Machine, kept: usize)
    requires { at + (layout.task).width ≤ length state.old }
    ensures { PartPut layout.task state.old at (task_of machine.now kept) state.new }
{
    machine.put(state, at);
    kept.put(state, at + places::TASK_KEPT);
}

pub(crate) fn put(
    state: &mut [u8],
    from: usize,
    machines: &[Machine; Tasks::COUNT],
    kept: &[usize; Tasks::COUNT],
)
    requires { from + (layout.tasks).width ≤ length state.old }
    ensures { PartPut layout.tasks state.old from (paired machines.now kept.now) state.new }
{
    for i in 0..Tasks::COUNT {
        put_task(state, from + i * places::TASK, &machines[i], kept[i]);
    }
}
