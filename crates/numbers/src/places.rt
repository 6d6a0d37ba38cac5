// Places of a slice.
ghost use Rattle.std.specs.Prelude.{◌≡◌};
ghost use Rattle.numbers.specs.Slices.{inside};

// Whether so many bytes from a place on all lie in the slice: the place is compared with how many such places there are.
pub(crate) fn inside(count: usize, bytes: &[u8], at: usize) -> bool
    ensures { result ≡ inside count bytes.now at }
{
    at < (bytes.len() + 1).saturating_sub(count)
}
