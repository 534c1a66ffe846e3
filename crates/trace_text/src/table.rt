ghost use Rattle.std.specs.Prelude.{◌≡◌, ◌≤◌, ◌++◌, length, IfOk, string_bytes, OnOk};
ghost use Rattle.netlist.specs.Holds.{entry_of};
ghost use Rattle.report.specs.Lines.{numbered};
ghost use Rattle.trace_text.specs.Lines.{channel_line, channel_of, fired_line, fired_of};

use crate::answers::{Front, Told};
use netlist::Module;
use play::Exchange;
use report::add_lines;
use std::alloc::{AllocError, Global};

// The line of a module: its number, its name and its firings.
fn module_text(
    heap: Global,
    number: usize,
    module: &Module,
    firings: Exchange<u32>,
) -> Result<String, AllocError>
    ensures { IfOk result (λ s. string_bytes s ≡ fired_of number (entry_of «module».now) firings) }
{
    let name = module.name.as_str();
    let count = Told(firings.answer);
    format!(in heap; "module {number} {name} fired {count}\n")
}

// A line for each module.
pub(crate) fn add_firings(
    heap: Global,
    text: &mut String,
    modules: &[Module],
    firings: &[Exchange<u32>],
) -> Result<(), AllocError>
    requires { length modules.now ≤ length firings.now }
    ensures { OnOk result (string_bytes text.new ≡ string_bytes text.old ++ numbered (λ k m. fired_line firings.now k (entry_of m)) 1 modules.now) }
{
    add_lines(text, modules, |number, module| {
        module_text(heap, number, module, firings[number - 1])
    })
}

// The line of a channel: its number, its fill and its front.
fn channel_text(
    heap: Global,
    number: usize,
    fill: Exchange<u32>,
    front: Exchange<u32>,
) -> Result<String, AllocError>
    ensures { IfOk result (λ s. string_bytes s ≡ channel_of number fill front) }
{
    let items = Told(fill.answer);
    let oldest = Front(front.answer);
    format!(in heap; "channel {number} fill {items} front {oldest}\n")
}

// A line for each channel.
pub(crate) fn add_fills(
    heap: Global,
    text: &mut String,
    fills: &[Exchange<u32>],
    fronts: &[Exchange<u32>],
) -> Result<(), AllocError>
    requires { length fills.now ≤ length fronts.now }
    ensures { OnOk result (string_bytes text.new ≡ string_bytes text.old ++ numbered (channel_line fronts.now) 1 fills.now) }
{
    add_lines(text, fills, |number, fill| {
        channel_text(heap, number, *fill, fronts[number - 1])
    })
}
