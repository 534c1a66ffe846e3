// What stands at the front of the bytes of a file, and the bytes after it.
ghost use Rattle.std.specs.Prelude.{take};
ghost use Rattle.netlist.specs.Faults.{byte as a_byte, kind as a_kind, name as a_name};
ghost use Rattle.netlist.specs.Scans.{first_channel, first_module, first_size};
ghost use Rattle.netlist.specs.Splits.{FirstBad, Splits, SplitsCount, SplitsName, SplitsRecord};

use crate::channel::Channel;
use crate::flaw::{EARLY, Flaw};
use crate::kind::Kind;
use crate::record::Record;
use crate::refusal::Cause;

// A byte from `low` to `high`.
fn split_byte(bytes: &[u8], low: u8, high: u8) -> Result<(u8, &[u8]), Flaw>
    ensures { Splits (a_byte low high bytes.now) result }
{
    match bytes {
        [byte, rest @ ..] if (low..=high).contains(byte) => Ok((*byte, rest)),
        [_, ..] => Err(Flaw::at(Cause::ValueOutOfRange, bytes)),
        [] => Err(EARLY),
    }
}

// A count of two bytes, high byte first, that is allowed. No such count is above 255, so its high byte is 0.
pub(crate) fn split_count<F: Fn(u8) -> bool>(bytes: &[u8], allowed: F) -> Result<(u8, &[u8]), Flaw>
    requires { F.IsAlwaysCallable allowed }
    ensures { SplitsCount (F.post allowed) bytes.now result }
{
    match bytes {
        [0, count, rest @ ..] if allowed(*count) => Ok((*count, rest)),
        [_, _, ..] => Err(Flaw::at(Cause::CountOutOfRange, bytes)),
        _ => Err(EARLY),
    }
}

// The place of the first byte that no name has, among the first so many.
fn first_bad(bytes: &[u8], count: usize) -> Option<usize>
    ensures { FirstBad (take count bytes.now) result }
{
    bytes
        .iter()
        .take(count)
        .position(|byte| !byte.is_ascii_graphic())
}

// A name of so many bytes.
fn split_name(bytes: &[u8], count: u8) -> Result<(&str, &[u8]), Flaw>
    ensures { SplitsName (a_name count bytes.now) result }
{
    let count = count as usize;
    if let Some(at) = first_bad(bytes, count) {
        return Err(Flaw::at(Cause::ValueOutOfRange, &bytes[at..]));
    }
    let Some((name, rest)) = bytes.split_at_checked(count) else {
        return Err(EARLY);
    };
    let name = std::str::from_utf8(name).unwrap();
    Ok((name, rest))
}

// A module's kind.
fn split_kind(bytes: &[u8]) -> Result<(Kind, &[u8]), Flaw>
    ensures { Splits (a_kind bytes.now) result }
{
    let [code, rest @ ..] = bytes else {
        return Err(EARLY);
    };
    let kind = Kind::try_from(*code).map_err(|cause| Flaw::at(cause, bytes))?;
    Ok((kind, rest))
}

// A module: its kind, the length of its name, and the name.
pub(crate) fn split_module(bytes: &[u8]) -> Result<(Record<'_>, &[u8]), Flaw>
    ensures { SplitsRecord (first_module bytes.now) result }
{
    let (kind, bytes) = split_kind(bytes)?;
    let (count, bytes) = split_byte(bytes, 1, 16)?;
    let (name, bytes) = split_name(bytes, count)?;
    Ok((Record::Module { kind, name }, bytes))
}

// A channel among so many modules.
pub(crate) fn split_channel(bytes: &[u8], modules: u8) -> Result<(Record<'_>, &[u8]), Flaw>
    ensures { SplitsRecord (first_channel modules bytes.now) result }
{
    let (source, bytes) = split_byte(bytes, 1, modules)?;
    let (sink, bytes) = split_byte(bytes, 1, modules)?;
    Ok((Record::Channel(Channel { source, sink }), bytes))
}

// A queue size.
pub(crate) fn split_size(bytes: &[u8]) -> Result<(Record<'_>, &[u8]), Flaw>
    ensures { SplitsRecord (first_size bytes.now) result }
{
    let (size, bytes) = split_byte(bytes, 1, 16)?;
    Ok((Record::Size(size), bytes))
}
