// The three linked stacks of document 01: returns, subroutine levels and exception levels.
// What an action does to them is a definition (specs/Actions.antt); this crate's code makes the parts and tests the whole.
#![tactic(auto)]

mod formed;

ghost use Rattle.std.specs.Prelude.{◌≡◌};
ghost use Rattle.links.specs.Fresh.{fresh_links};
ghost use Rattle.links.specs.Linked.{linked};

// A subroutine level: its locals, the copy of R and the return address (levels from 1; level 0 leaves both at zero).
#[derive(Clone, Copy, Default)]
pub struct Frame {
    pub locals: [u32; Frame::LOCALS],
    pub r: usize,
    pub address: u32,
}

// An exception level: its cells, the copies of S and of P and the throw address (levels from 1; level 0 leaves the three at zero).
#[derive(Clone, Copy, Default)]
pub struct Level {
    pub cells: [u32; Level::CELLS],
    pub s: usize,
    pub p: usize,
    pub address: u32,
}

// The return cells with R, the subroutine levels with S and the exception levels with E.
#[derive(Clone, Copy, Default)]
pub struct Links {
    pub returns: [u32; Links::RETURNS],
    pub r: usize,
    pub frames: [Frame; Links::FRAMES],
    pub s: usize,
    pub levels: [Level; Links::LEVELS],
    pub e: usize,
}

impl Frame {
    pub const LOCALS: usize = 16;
}

impl Level {
    pub const CELLS: usize = 8;
}

impl Links {
    // How deep each stack may grow.
    pub const RETURNS: usize = 64;

    pub const SUBROUTINES: usize = 32;

    pub const EXCEPTIONS: usize = 8;

    // The parameter stack's depth: a copy of P leaves room in it for the code that a THROW pushes.
    pub const PARAMETERS: usize = 64;

    pub const MOST_COPY_OF_P: usize = Links::PARAMETERS - 1;

    // Level 0 is there too: 33 frames and 9 exception levels.
    pub const FRAMES: usize = Links::SUBROUTINES + 1;

    pub const LEVELS: usize = Links::EXCEPTIONS + 1;

    // Links whose every number is zero.
    pub fn fresh() -> Links
        ensures { result ≡ fresh_links }
    {
        Links::default()
    }
}

// Whether the pointers are within the depths and the copies of R, S and P are as document 01 asks.
// The pointers are tested first: the loops read no level above them.
#[tactic(auto, using(std::proofs::lemmas::Bool::Decides::nat_tests), unfolding(crate::specs::Linked::linked))]
pub fn well_formed(links: Links) -> bool
    ensures { result ≡ linked links }
{
    links.r <= Links::RETURNS
        && links.s <= Links::SUBROUTINES
        && links.e <= Links::EXCEPTIONS
        && formed::returns_rise(&links.frames, links.r, links.s)
        && formed::levels_hold(&links.levels, links.s, links.e)
}
