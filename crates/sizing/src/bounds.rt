// How many slots it takes at least. A slow cycle lacks tokens, and each slot brings it one at most, since it passes no place twice.
// Cycles that are slow one after another, where each time all queues along the last one are put at their caps, share no queue that a
// candidate could deepen for two of them: so each takes slots of its own.
ghost use Rattle.std.specs.Prelude.{◌≡◌, ℕ, ◌*◌, ◌/◌, ◌<◌, ◌≤◌, List, length, slice_index};
ghost use Rattle.sizing.specs.Candidates.{AtLeast, Reaching, added};
ghost use Rattle.sizing.specs.Trials.{Backward, Lacks, Ready};

use crate::aim::Aim;
use crate::places::channel_with_room;
use marked::{MODULES, Target};
use netlist::CHANNELS;
use rating::{SizedNetlist, SlowCycle, slow_cycle_with_tokens};

// Puts the queue of each channel along which one of the places leads back at its cap.
fn lift(places: &[u16], caps: &[u8], sizes: &mut [u8])
    requires within { (i : ℕ) → i < length places.now → slice_index places.now i / 2 < length sizes.old }
    requires under { AtLeast sizes.old caps.now }
    ensures above { AtLeast sizes.old sizes.new }
    ensures under { AtLeast sizes.new caps.now }
    ensures full { (i : ℕ) → i < length places.now → Backward (slice_index places.now i) → slice_index caps.now (slice_index places.now i / 2) ≤ slice_index sizes.new (slice_index places.now i / 2) }
{
    for place in places {
        if let Some(channel) = channel_with_room(*place, sizes, caps) {
            sizes[channel] = caps[channel];
        }
    }
}

// The tokens that a slow cycle lacks: the fewest with which its mean would be A/B at least.
fn lacking(target: Target, cycle: SlowCycle) -> usize
    requires short { cycle.length ≤ 64 }
    requires slow { target.b * cycle.tokens < target.a * cycle.length }
    ensures { Lacks target.a target.b cycle.length cycle.tokens result }
{
    let (a, b) = target.fraction();
    let short = a * cycle.length as u32 - b * cycle.tokens;
    short.div_ceil(b) as usize
}

// A number of slots that every candidate which reaches the target adds to the table. Counting ends once there are `enough`.
pub(crate) fn least_needed(aim: Aim, chip: SizedNetlist, enough: usize) -> usize
    requires { AtLeast chip.sizing.now aim.caps.now }
    ensures { (t : List ℕ) → AtLeast chip.entry.sizing.now t → AtLeast t aim.entry.caps.now → Reaching chip.entry.netlist.now aim.entry.target.a aim.entry.target.b t → result ≤ added chip.entry.sizing.now t }
{
    // Arrays, here and below: a sizing may not fail for memory.
    let mut table = [0; CHANNELS];
    let raised = &mut table[..chip.sizing().len()];
    raised.copy_from_slice(chip.sizing());
    let mut need = 0;
    while need < enough {
        let mut cycle = [0; MODULES];
        let deeper = SizedNetlist::new(chip.netlist(), raised);
        let Some(slow) = slow_cycle_with_tokens(deeper, aim.target, &mut cycle) else {
            return need;
        };
        lift(&cycle[0..slow.length], aim.caps, raised);
        need = need.saturating_add(lacking(aim.target, slow));
    }
    need
}
