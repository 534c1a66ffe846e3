use checking::check;
use drafts::{netlist_of, spaced};
use forecasting::forecast;
use netlist::ReadError;
use std::alloc::Global;

// What the list holds before a forecast: no module fires so often.
const NO_COUNT: u32 = 7_777_777;

// What becomes of a file that is read, checked and foretold under a sizing, into a list of so many entries.
pub fn outcome(
    heap: Global,
    file: &[u8],
    sizing: &[u8],
    steps: u32,
    room: usize,
) -> Result<String, ReadError> {
    let netlist = netlist_of(heap, file)?;
    let checked = check(&netlist)?;
    let mut list = vec![in heap; NO_COUNT; room]?;
    let foretold = forecast(checked, sizing, steps, list.as_mut_slice());
    let firings = list.as_slice();
    let modules = netlist.modules().len().min(firings.len());
    let text = match foretold {
        Ok(()) => {
            let counts = spaced(heap, &firings[0..modules])?;
            let kept = kept_text(firings, modules);
            format!(in heap; "firings{counts}, rest {kept}")?
        }
        Err(refusal) => {
            let kept = kept_text(firings, 0);
            format!(in heap; "{refusal}, list {kept}")?
        }
    };
    Ok(text)
}

// Whether the list still holds what it held, from an entry on.
fn kept_text(firings: &[u32], from: usize) -> &'static str {
    if firings.iter().skip(from).all(|count| *count == NO_COUNT) {
        "kept"
    } else {
        "lost"
    }
}
