// How a sizing is found that reaches a target. A table that does not reach it has a slow cycle, and a deeper table that reaches it
// is deeper at some channel along which a place of that cycle leads back, since nothing else brings tokens there. So it is enough to
// try one slot more at each of these channels.
ghost use Rattle.std.specs.Prelude.{◌≡◌, ◌≤◌, length};
ghost use Rattle.sizing.specs.Trials.{Ready, Verdict};

use crate::aim::Aim;
use crate::bounds::least_needed;
use crate::deepened::Deepened;
use crate::places::channel_with_room;
use crate::rated::slow_when_rated;
use marked::MODULES;
use netlist::CHANNELS;
use rating::SizedNetlist;

// Looks for a candidate that adds at most so many slots to the table and reaches the target: the front of what is answered. The table
// itself is the same at the end. (An array and no list, since a sizing may not fail for memory.)
pub(crate) fn search(aim: Aim, sizes: &mut [u8], slots: usize) -> Option<[u8; CHANNELS]>
    requires ready { Ready aim.netlist.now aim.caps.now sizes.old }
    requires few { slots ≤ 8 }
    ensures kept { sizes.new ≡ sizes.old }
    ensures verdict { Verdict aim.entry.netlist.now aim.entry.target.a aim.entry.target.b aim.entry.caps.now sizes.old slots result }
{
    let mut cycle = [0; MODULES];
    let chip = SizedNetlist::new(aim.netlist, sizes);
    let Some(count) = slow_when_rated(chip, aim.target, &mut cycle) else {
        let mut found = [0; CHANNELS];
        found[..sizes.len()].copy_from_slice(sizes);
        return Some(found);
    };
    if slots == 0 {
        return None;
    }
    let needed = least_needed(aim, chip, slots + 1);
    if needed > slots {
        return None;
    }
    for place in &cycle[0..count] {
        if let Some(channel) = channel_with_room(*place, sizes, aim.caps) {
            let guard = Deepened::new(sizes, channel);
            if let Some(found) = search(aim, &mut *guard.sizes, slots - 1) {
                return Some(found);
            }
        }
    }
    None
}
