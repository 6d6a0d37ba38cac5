// The reader of image files: document 01, "Image file".
#![tactic(auto)]

mod judging;
mod place;
mod sections;

ghost use Rattle.std.specs.Prelude.{◌≡◌};
ghost use Rattle.image.specs.Loading.{Read, refused_with, returned};
ghost use Rattle.machine.specs.Refusals.{number_of};
ghost use Rattle.machine.specs.declared.refusal.Refusal.TheVariants.{BadImage};

pub use judging::judge;
use machine::{Machine, Refusal};
pub use sections::{LONGEST_FILE, limits_of, longest_file};

// The sections of a file, in their order.
#[derive(Clone, Copy, Debug, PartialEq, Eq)]
pub enum Section {
    Memory,
    Cells,
    Budget,
}

// What a section may hold: the bytes of an element, the fewest elements and the most.
#[derive(Clone, Copy, Debug, PartialEq, Eq)]
pub struct Limits {
    pub width: usize,
    pub fewest: usize,
    pub most: usize,
}

// The elements of a section: the byte of the file where they begin, how many they are, and the byte after them.
#[derive(Clone, Copy, Debug, PartialEq, Eq)]
pub struct Span {
    pub from: usize,
    pub count: usize,
    pub to: usize,
}

// The elements of each section.
#[derive(Clone, Copy, Debug, PartialEq, Eq)]
pub struct Spans {
    pub memory: Span,
    pub cells: Span,
    pub budget: Span,
}

// What is wrong with a file, and at which byte of it.
#[derive(Clone, Copy, Debug, PartialEq, Eq)]
pub enum Fault {
    // The file ends before the section that begins here does.
    Cut(Section, usize),
    // The section's count, which stands here, is outside its limits.
    Count(Section, usize),
    // The budget that stands here passes its limit.
    Budget(usize),
    // What stands from here on belongs to no section.
    Surplus(usize),
}

// To a run, every fault of a file is one refusal.
impl From<Fault> for Refusal {
    ghost from_gives = { λ _ refusal. refusal ≡ BadImage };

    fn from(_fault: Fault) -> Refusal {
        Refusal::BadImage
    }
}

// What the reader returns, with the sum of the memory that it filled. After a refusal too: then the machine is fresh, and budget and sum
// are 0, as document 01 asks, so that the verdict stands beside them and not around them.
#[derive(Clone, Copy)]
pub struct Loaded {
    pub machine: Machine,
    pub verdict: Result<(), Refusal>,
    pub budget: u32,
    pub sum: u64,
}

fn refused(refusal: Refusal) -> Loaded
    ensures { returned result ≡ refused_with (number_of refusal) }
{
    Loaded {
        machine: Machine::fresh(),
        verdict: Err(refusal),
        budget: 0,
        sum: 0,
    }
}

// The whole file is judged before memory is touched.
pub fn read(file: &[u8], memory: &mut [u8]) -> Loaded
    ensures { Read file.now memory.old memory.new (returned result) }
{
    if memory.len() != Machine::MEMORY {
        return refused(Refusal::NotAsAsked);
    }
    match judge(file) {
        Ok(spans) => place::image(file, spans, memory),
        Err(fault) => refused(Refusal::from(fault)),
    }
}
