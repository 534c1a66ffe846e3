ghost use Rattle.std.specs.Prelude.{◌≡◌, ◌≤◌, ◌++◌, map, length, IfOk, IfSome, string_bytes, OnOk};
ghost use Rattle.netlist.specs.Holds.{entry_of};
ghost use Rattle.report.specs.Lines.{named, numbered, rating_lines, spaced};

use crate::listing::add_lines;
use netlist::Module;
use std::alloc::{AllocError, Global};
use std::fmt::Display;

// The line of a module: its number, its name and a value.
pub(crate) fn module_text<N: Display + Drop>(
    heap: Global,
    number: usize,
    module: &Module,
    value: N,
) -> Result<String, AllocError>
    ensures { IfSome (N.output value) (λ words. IfOk result (λ s. string_bytes s ≡ named words number (entry_of «module».now))) }
{
    let name = module.name.as_str();
    format!(in heap; "module {number} {name} {value}\n")
}

// The places of a cycle, a space before each.
fn add_places(heap: Global, text: &mut String, places: &[u16]) -> Result<(), AllocError>
    ensures { OnOk result (string_bytes text.new ≡ string_bytes text.old ++ numbered spaced 1 places.now) }
{
    add_lines(text, places, |_, place| format!(in heap; " {place}"))
}

// The lines of a rating.
pub(crate) fn rating_text(
    heap: Global,
    rate: (u32, u32),
    places: &[u16],
    modules: &[Module],
    potentials: &[i32],
) -> Result<String, AllocError>
    requires { length modules.now ≤ length potentials.now }
    ensures { IfOk result (λ s. string_bytes s ≡ rating_lines rate.0 rate.1 places.now (map entry_of modules.now) potentials.now) }
{
    let (p, l) = rate;
    let mut text = format!(in heap; "rate {p}/{l}\nplaces")?;
    add_places(heap, &mut text, places)?;
    text.push_str("\n")?;
    add_lines(&mut text, modules, |number, module| {
        module_text(heap, number, module, potentials[number - 1])
    })?;
    Ok(text)
}
