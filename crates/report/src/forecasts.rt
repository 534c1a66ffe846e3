ghost use Rattle.std.specs.Prelude.{◌≡◌, ◌≤◌, length, IfOk, string_bytes};
ghost use Rattle.netlist.specs.Holds.{entry_of};
ghost use Rattle.report.specs.Files.{OnPrinted, sizes_of};
ghost use Rattle.report.specs.Forecasts.{StepsText, count_line};
ghost use Rattle.report.specs.Lines.{numbered};
ghost use Rattle.report.specs.Texts.{Prints};

use crate::file::NetlistFile;
use crate::lines::module_text;
use crate::listing::add_lines;
use crate::telling::or_refusal;
use checking::check;
use forecasting::forecast;
use marked::MODULES;
use netlist::{Module, ReadError};
use std::alloc::{AllocError, Global};

/// The lines of the forecast of a netlist file under its own sizing: the firings of each module after so many free steps; or the
/// refusal's line alone.
pub fn forecast_text(heap: Global, file: &[u8], steps: u32) -> Result<String, AllocError>
    ensures { IfOk result (λ text. Prints (StepsText steps) file.now (string_bytes text)) }
{
    let told = NetlistFile::read(heap, file).and_then(|file| steps_text(heap, &file, steps));
    or_refusal(heap, told)
}

// The same of a file that was read.
fn steps_text(heap: Global, file: &NetlistFile, steps: u32) -> Result<String, ReadError>
    ensures { OnPrinted (StepsText steps file.now.netlist (sizes_of file.now)) result }
{
    let netlist = file.netlist();
    let checked = check(netlist)?;
    // With an entry for each of the most modules, as the definition of this text says: a Vec of that length would be no plainer.
    let mut firings = [0; MODULES];
    forecast(checked, file.sizing(), steps, &mut firings)?;
    let text = counts_text(heap, netlist.modules(), &firings)?;
    Ok(text)
}

// A line for each module.
fn counts_text(heap: Global, modules: &[Module], firings: &[u32]) -> Result<String, AllocError>
    requires { length modules.now ≤ length firings.now }
    ensures { IfOk result (λ s. string_bytes s ≡ numbered (λ k m. count_line firings.now k (entry_of m)) 1 modules.now) }
{
    let mut text = String::new(heap);
    add_lines(&mut text, modules, |number, module| {
        module_text(heap, number, module, firings[number - 1])
    })?;
    Ok(text)
}
