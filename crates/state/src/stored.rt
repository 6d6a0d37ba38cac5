// A value that stands in the bytes of a state, and rows of such values. Each function reads or writes at a place that its caller keeps
// inside the buffer; what stands before the place stays, and what stands after it is for the functions that follow.
ghost use Rattle.std.specs.Prelude.{◌≡◌, ℕ, ◌+◌, ◌≤◌, length};
ghost use Rattle.state.specs.Parts.{Part, array};
ghost use Rattle.state.specs.Places.{PartStands, PartPut};

pub(crate) trait Stored: Copy {
    // its part of the layout (specs/Layout.antt)
    ghost part: { Part Self };

    ghost WIDTH: { ℕ };

    const WIDTH: usize;

    fn read(state: &[u8], at: usize) -> Self
        requires { at + part.width ≤ length state.now }
        ensures { PartStands part state.now at result };

    fn put(&self, state: &mut [u8], at: usize)
        requires { at + part.width ≤ length state.old }
        ensures { PartPut part state.old at self.now state.new };

    ghost as_wide: { WIDTH ≡ part.width };
}

// As many values as there are to fill. They are lent: those of a result would stand on the stack beside them.
pub(crate) fn fill<T: Stored>(state: &[u8], from: usize, values: &mut [T])
    requires { from + (array (length values.old) T.part).width ≤ length state.now }
    ensures { PartStands (array (length values.old) T.part) state.now from values.new }
{
    for (i, value) in values.iter_mut().enumerate() {
        *value = T::read(state, from + i * T::WIDTH);
    }
}

pub(crate) fn put_all<T: Stored>(state: &mut [u8], from: usize, values: &[T])
    requires { from + (array (length values.now) T.part).width ≤ length state.old }
    ensures { PartPut (array (length values.now) T.part) state.old from values.now state.new }
{
    for (i, value) in values.iter().enumerate() {
        value.put(state, from + i * T::WIDTH);
    }
}
