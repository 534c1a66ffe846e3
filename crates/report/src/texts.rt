ghost use Rattle.std.specs.Prelude.{◌≡◌, IfOk, None, string_bytes};
ghost use Rattle.netlist.specs.Holds.{channels};
ghost use Rattle.rating.specs.Sizings.{sizing_fault};
ghost use Rattle.report.specs.Files.{OnPrinted, sizes_of};
ghost use Rattle.report.specs.Texts.{NetlistText, Prints, RatedText};

use crate::file::NetlistFile;
use crate::lines::rating_text;
use crate::telling::or_refusal;
use checking::{Checked, check};
use marked::MODULES;
use netlist::ReadError;
use rating::rate;
use std::alloc::{AllocError, Global};

/// The lines of the rating of a netlist file under its own sizing, or the refusal's line alone.
pub fn rate_text(heap: Global, file: &[u8]) -> Result<String, AllocError>
    ensures { IfOk result (λ text. Prints NetlistText file.now (string_bytes text)) }
{
    let told = NetlistFile::read(heap, file).and_then(|file| netlist_text(heap, &file));
    or_refusal(heap, told)
}

// The same of a file that was read.
fn netlist_text(heap: Global, file: &NetlistFile) -> Result<String, ReadError>
    ensures { OnPrinted (NetlistText file.now.netlist (sizes_of file.now)) result }
{
    let checked = check(file.netlist())?;
    let text = checked_text(heap, checked, file.sizing())?;
    Ok(text)
}

// The lines of the rating of a checked netlist.
pub(crate) fn checked_text(
    heap: Global,
    checked: Checked,
    sizing: &[u8],
) -> Result<String, AllocError>
    requires { sizing_fault (channels checked.netlist.now) sizing.now ≡ None }
    ensures { IfOk result (λ text. RatedText checked.entry.netlist.now sizing.now (string_bytes text)) }
{
    // With an entry for each of the most modules: two Vecs would be two calls more that can fail for memory, and no plainer.
    let mut cycle = [0; MODULES];
    let mut potentials = [0; MODULES];
    let Ok(rating) = rate(checked, sizing, &mut cycle, &mut potentials) else {
        unreachable()
    };
    let length = rating.length();
    let modules = rating.netlist().modules();
    rating_text(heap, rating.rate(), &cycle[0..length], modules, &potentials)
}
