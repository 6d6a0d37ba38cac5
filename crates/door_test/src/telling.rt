// What a call came to, on one line.
use machine::{Cycles, Steps};
use std::io;

pub(crate) fn numbers(
    rt: &impl Print,
    name: &str,
    answer: u32,
    steps: Steps,
    cycles: Cycles,
) -> io::Result<()> {
    print!(rt;
        "{name}: answer {answer}, steps {}, cycles {}",
        steps.0, cycles.0
    )
}

pub(crate) fn kept(rt: &impl Print, what: &str, same: bool) -> io::Result<()> {
    rt.print(what)?;
    if same {
        rt.print("unaltered")
    } else {
        rt.print("altered")
    }
}

pub(crate) fn sum(rt: &impl Print, number: u64) -> io::Result<()> {
    print!(rt; ", sum {number}")
}

pub(crate) fn end(rt: &impl Print) -> io::Result<()> {
    rt.println("")
}
