ghost use Rattle.std.specs.Prelude.{◌≡◌};
ghost use Rattle.netlist.specs.Faults.{verdict};
ghost use Rattle.netlist.specs.Reads.{coming, rest_of};
ghost use Rattle.netlist.specs.Scans.{FairNext, Next, Shorter};

use crate::record::Record;
use crate::refusal::Refusal;
use crate::scan::Scan;

/// Hands out the records of a file one after another.
#[derive(Clone, Copy)]
pub struct Reader<'f> {
    scan: Scan<'f>,
    // The file's length, from which the place of a fault is counted.
    size: usize,
}

impl<'f> Reader<'f> {
    pub fn new(file: &'f [u8]) -> Reader<'f>
        ensures all { coming result ≡ verdict file.now }
        ensures whole { rest_of result ≡ file.now }
    {
        Reader {
            scan: Scan::new(file),
            size: file.len(),
        }
    }

    /// The next record, none at the end of the file, or the file's fault. After the end or a fault it answers the same again.
    // No `Iterator`, for which `judge` and `gather` have loops: since a fault is answered again, one over a faulty file would not
    // end. One that ends needs a flag whether the fault has been given, and both would still leave their `for` by `?`.
    pub fn next(&mut self) -> Result<Option<Record<'f>>, Refusal>
        ensures reads { Next (coming self.old) result (coming self.new) }
        ensures fair { FairNext result }
        ensures shorter { Shorter (rest_of self.old) result (rest_of self.new) }
    {
        let size = self.size;
        self.scan.next().map_err(|flaw| flaw.placed(size))
    }
}
