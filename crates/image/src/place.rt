// Places what a good file spells.
ghost use Rattle.std.specs.Prelude.{◌≡◌, ◌+◌, ◌*◌, ◌≤◌, ◌++◌, length, drop};
ghost use Rattle.plain.specs.Zeros.{padded};
ghost use Rattle.machine.specs.Limits.{memory_length};
ghost use Rattle.machine.specs.Sum.{sum_of};
ghost use Rattle.links.specs.Depths.{cells_depth};
ghost use Rattle.image.specs.Format.{cell_width};
ghost use Rattle.image.specs.Loading.{returned, filled, loaded_from};
ghost use Rattle.image.specs.Judging.{values_in};
ghost use Rattle.image.specs.Laws.Sound.{GoodFile, image_in};

use crate::{Loaded, Section, Span, Spans, sections};
use machine::Machine;

// Some bytes in front of a memory. A `for` and no `copy_from_slice`, by which the libraries would need memmove (include/glidecotton.h).
fn put_front(bytes: &[u8], memory: &mut [u8])
    requires { length bytes.now ≤ length memory.old }
    ensures { memory.new ≡ bytes.now ++ drop (length bytes.now) memory.old }
{
    for i in 0..bytes.len() {
        memory[i] = bytes[i];
    }
}

// The bytes of an image, then zeros.
#[tactic(auto, unfolding(plain::specs::Zeros::padded))]
fn memory_bytes(bytes: &[u8], memory: &mut [u8])
    requires { length bytes.now ≤ length memory.old }
    ensures { memory.new ≡ padded (length memory.old) bytes.now }
{
    put_front(bytes, memory);
    memory[bytes.len()..].fill(0);
}

// What the bytes of an image add up to, and so the memory that they fill: the zeros behind them add nothing.
fn added_up(bytes: &[u8]) -> u64
    requires { length bytes.now ≤ memory_length }
    ensures { result ≡ sum_of bytes.now }
{
    bytes.iter().map(|byte| *byte as u64).sum()
}

// The cells, and zeros above them.
#[tactic(auto, using(crate::proofs::Placing::value_placed), unfolding(plain::specs::Zeros::padded, numbers::specs::Lists::list_at))]
fn cells(file: &[u8], span: Span) -> [u32; Machine::CELLS]
    requires { (span.from + cell_width * span.count ≤ length file.now) × (span.count ≤ cells_depth) }
    ensures { result ≡ padded cells_depth (values_in file.now Section.Cells span) }
{
    let from = span.from;
    let count = span.count;
    let mut cells = [0u32; Machine::CELLS];
    for i in 0..count {
        cells[i] = sections::cell_at(file, from + sections::CELL * i);
    }
    cells
}

// The file is known to be good before anything is placed. The budget is read before memory is written and the machine made:
// read later, it would be a number that the compiler does not know to be judged, and a branch around a machine (docs/SPEED.md).
pub(crate) fn image(file: &[u8], spans: Spans, memory: &mut [u8]) -> Loaded
    requires { GoodFile file.now spans × (length memory.old ≡ memory_length) }
    ensures { (memory.new ≡ filled (image_in file.now spans)) × (returned result ≡ loaded_from (image_in file.now spans)) }
{
    let last = spans.budget;
    let budget = sections::budget_in(file, last);
    let span = spans.memory;
    let bytes = &file[span.from..span.from + span.count];
    let sum = added_up(bytes);
    memory_bytes(bytes, memory);
    let stack = spans.cells;
    let placed = cells(file, stack);
    let mut machine = Machine::fresh();
    machine.cells = placed;
    machine.p = stack.count;
    Loaded {
        machine,
        verdict: Ok(()),
        budget,
        sum,
    }
}
