ghost use Rattle.std.specs.Prelude.{◌≡◌, ◌≤◌, length, MatchOption};
ghost use Rattle.sizing.specs.Answers.{SizeAnswer};
ghost use Rattle.sizing.specs.Candidates.{Fewest, Unreached};
ghost use Rattle.sizing.specs.Trials.{Ready};

use crate::aim::Aim;
use crate::requests::test_request;
use crate::trials::search;
use checking::Checked;
use netlist::{Cause, Refusal};

// Looks for a candidate that adds 0 slots, then 1, and so on: the first that reaches the target goes into the table.
fn fewest(aim: Aim, most: usize, sizing: &mut [u8]) -> Option<usize>
    requires ready { Ready aim.netlist.now aim.caps.now sizing.old }
    requires few { most ≤ 8 }
    ensures { MatchOption result ((sizing.new ≡ sizing.old) × Unreached aim.entry.netlist.now aim.entry.target.a aim.entry.target.b aim.entry.caps.now most sizing.old) (λ k. Fewest aim.entry.netlist.now aim.entry.target.a aim.entry.target.b aim.entry.caps.now most sizing.old k sizing.new) }
{
    for slots in 0..=most {
        if let Some(found) = search(aim, sizing, slots) {
            sizing.copy_from_slice(&found[..sizing.len()]);
            return Some(slots);
        }
    }
    None
}

/// Deepens the queues of a checked netlist so that its rate is A/B at least. Each queue goes from its present byte in `sizing` to its
/// cap at most, and at most `allowance` slots are added. Returns the fewest added slots that do, and `sizing` then holds such a table.
/// On a refusal it stays as it was: for the target, the sizing, the caps or the allowance, in this order, or since nothing does.
pub fn size(
    checked: Checked,
    target: (u32, u32),
    caps: &[u8],
    allowance: usize,
    sizing: &mut [u8],
) -> Result<usize, Refusal>
    ensures { SizeAnswer checked.entry.netlist.now target.0 target.1 caps.now allowance sizing.old sizing.new result }
{
    let netlist = checked.netlist();
    let channels = netlist.channels().len();
    let target = test_request(channels, target, caps, allowance, sizing)?;
    let aim = Aim {
        netlist,
        target,
        caps,
    };
    fewest(aim, allowance, sizing).ok_or(Cause::Unreachable.into())
}
