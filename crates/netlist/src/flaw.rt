ghost use Rattle.std.specs.Prelude.{◌≡◌};
ghost use Rattle.netlist.specs.Faults.{flaw, placed_flaw};

use crate::refusal::{Cause, Refusal};

// What is wrong with the bytes of a file. It says how many bytes stand from its place on, since a reader of what is left of a
// file knows no more; the place from the front follows from the file's length.
#[derive(Clone, Copy)]
pub(crate) struct Flaw {
    pub(crate) cause: Cause,
    pub(crate) left: usize,
}

// The bytes end where more are due.
pub(crate) const EARLY: Flaw = Flaw {
    cause: Cause::EndsEarly,
    left: 0,
};

impl Flaw {
    // A flaw at the front of these bytes.
    pub(crate) fn at(cause: Cause, bytes: &[u8]) -> Flaw
        ensures { result ≡ flaw cause bytes.now }
    {
        Flaw {
            cause,
            left: bytes.len(),
        }
    }

    // With its place from the front of a file of so many bytes. No more are left of it, so nothing is cut off.
    pub(crate) fn placed(self, size: usize) -> Refusal
        ensures { result ≡ placed_flaw size self }
    {
        self.cause.at(size.saturating_sub(self.left))
    }
}
