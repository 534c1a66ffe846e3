ghost use Rattle.netlist.specs.Faults.{verdict};
ghost use Rattle.netlist.specs.Gathers.{Judges};

use crate::reader::Reader;
use crate::record::Record;
use crate::refusal::Refusal;

// How many channels a file has, once all of it is found without fault.
pub(crate) fn judge(file: &[u8]) -> Result<usize, Refusal>
    ensures { Judges (verdict file.now) result }
{
    let mut reader = Reader::new(file);
    let mut channels = 0;
    while let Some(record) = reader.next()? {
        if let Record::Channel(_) = record {
            channels += 1;
        }
    }
    Ok(channels)
}
