// How a test becomes a cell, and how it becomes a flag.
ghost use Rattle.std.specs.Prelude.{◌≡◌};
ghost use Rattle.word.specs.Truth.{truth_of, bit_of};

// True is all ones.
pub(crate) fn truth(holds: bool) -> u32
    ensures { result ≡ truth_of holds }
{
    if holds { 0xffff_ffff } else { 0 }
}

pub(crate) fn bit(holds: bool) -> u32
    ensures { result ≡ bit_of holds }
{
    if holds { 1 } else { 0 }
}
