ghost use Rattle.play.specs.Trials.{Tried};

use crate::exchange::Exchange;
use crate::plays::play;
use checking::Checked;
use cores::CoreSet;
use marked::MODULES;
use netlist::Refusal;
use rating::rate;
use sizing::size;

/// Deepens the queues of a checked netlist for a target A/B with the fewest slots, as `size` does, then plays the calls of a list under
/// the sizing found. Returns the number of added slots, or why nothing was found; and in both cases the set of cores. On a refusal the
/// sizing, the list, the table and the set are as they were.
// Target, caps and allowance come one by one, as `size` takes them: a struct would be made for each call, and taken apart for that one.
pub fn trial<C: CoreSet>(
    checked: Checked,
    target: (u32, u32),
    caps: &[u8],
    allowance: usize,
    sizing: &mut [u8],
    cores: C,
    exchanges: &mut [Exchange<C::Item>],
    table: &mut [C::Item],
) -> (Result<usize, Refusal>, C)
    ensures { Tried C.CoreSet.rules C.CoreSet.held checked.entry.netlist.now target.0 target.1 caps.now allowance sizing.old sizing.new cores result.1 exchanges.old exchanges.new table.old table.new result.0 }
{
    // The set goes back on a refusal too, so that `?` will not do.
    let added = match size(checked, target, caps, allowance, sizing) {
        Ok(added) => added,
        Err(why) => return (Err(why), cores),
    };
    // What was found can be rated.
    let rating = rate(checked, sizing, &mut [0; MODULES], &mut [0; MODULES]).unwrap();
    (Ok(added), play(rating, cores, exchanges, table))
}
