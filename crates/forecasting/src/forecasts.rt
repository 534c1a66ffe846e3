ghost use Rattle.std.specs.Prelude.{◌≡◌, ℕ, ◌<◌, ◌≤◌, length, slice_index};
ghost use Rattle.marked.specs.Limits.{Starts};
ghost use Rattle.netlist.specs.Holds.{modules};
ghost use Rattle.scale.specs.Counts.{element};
ghost use Rattle.scale.specs.LeastTotal.{least_total};
ghost use Rattle.std.specs.Int.{IsInRange};
ghost use Rattle.forecasting.specs.Forecasts.{ForecastAnswer, Foretold};
ghost use Rattle.forecasting.specs.Weights.{Fired, Unfired};

use crate::weights::weigh;
use checking::Checked;
use marked::{MODULES, Place};
use netlist::{Cause, Refusal};
use rating::{ExtendedGraph, SizedNetlist};
use scale::elements::Total;
use scale::rounds::rounds;
use scale::scale::Scale;

/// The most steps of a forecast.
pub const STEPS: u32 = 1_000_000;

// The most entries of a table of moves.
const MOVES: usize = MODULES * MODULES;

/// Puts into the front of `firings` how often each module of a checked netlist has fired after so many free steps under a sizing. The
/// list wants an entry for each module. Its other entries stay as they were, and all of it on a refusal.
pub fn forecast(
    checked: Checked,
    sizing: &[u8],
    steps: u32,
    firings: &mut [u32],
) -> Result<(), Refusal>
    ensures { ForecastAnswer checked.entry.netlist.now sizing.now steps firings.old firings.new result }
{
    let chip = SizedNetlist::test(checked.netlist(), sizing)?;
    if steps > STEPS {
        return Err(Cause::BeyondLimit.into());
    }
    let modules = chip.netlist().modules().len();
    if firings.len() < modules {
        return Err(Refusal {
            cause: Cause::ListTooShort,
            place: modules,
        });
    }
    foretell(chip, steps, firings);
    Ok(())
}

// The same into a list with room for every module.
fn foretell(chip: SizedNetlist, steps: u32, firings: &mut [u32])
    requires steps { steps ≤ 1000000 }
    requires room { modules chip.netlist.now ≤ length firings.old }
    ensures { Foretold chip.entry.netlist.now chip.entry.sizing.now steps firings.old firings.new }
{
    let graph = ExtendedGraph::of(chip);
    let n = chip.netlist().modules().len();
    // A forecast may not fail for memory: its lists, here and below, are the fronts of arrays of the largest size.
    let mut cells = [Total::start(); MODULES];
    let totals = &mut cells[0..n];
    fire(graph.places(), steps, totals);
    put_sums(totals, firings);
}

// Takes the totals of modules that have not fired to their firings after so many free steps, which are never above the steps.
fn fire(places: &[Place], steps: u32, totals: &mut [Total])
    requires starts { Starts (length totals.old) places.now }
    requires modules { IsInRange 1 64 (length totals.old) }
    requires unfired { Unfired totals.old }
    requires steps { steps ≤ 1000000 }
    ensures { Fired places.now steps totals.new }
{
    let n = totals.len();
    let mut cells = [Total::no_way(); MOVES];
    let weights = &mut cells[0..n * n];
    weigh(places, n, weights);
    let mut scratch = [Total::start(); MODULES];
    rounds(totals, &mut scratch[0..n], weights, steps);
}

// Puts the sums of totals into the front of a list.
fn put_sums(totals: &[Total], sums: &mut [u32])
    requires { length totals.now ≤ length sums.old }
    ensures front { (v : ℕ) → v < length totals.now → slice_index sums.new v ≡ (element least_total totals.now v).sum }
    ensures behind { (v : ℕ) → length totals.now ≤ v → slice_index sums.new v ≡ slice_index sums.old v }
{
    // No `zip` over `iter_mut`: of what is written through it a proof knows nothing; `enumerate` it knows.
    for (at, total) in totals.iter().enumerate() {
        sums[at] = total.sum;
    }
}
