ghost use Rattle.std.specs.Prelude.{◌≡◌, ℕ, ◌<◌, ◌≤◌, false, length, slice_index_or};
ghost use Rattle.run.specs.Told.{Judged, unused};

use crate::inner::{Inner, ModuleState};

// None of the first so many modules is marked any more.
pub(crate) fn unmark(states: &mut [ModuleState], modules: usize)
    requires { modules ≤ length states.old }
    ensures firings { (k : ℕ) → (slice_index_or states.new k unused).firings ≡ (slice_index_or states.old k unused).firings }
    ensures marked { (k : ℕ) → k < modules → (slice_index_or states.new k unused).marked ≡ false }
{
    for state in states[..modules].iter_mut() {
        state.marked = false;
    }
}

impl Inner {
    // The modules that a step fires, at the places of `states`. The array is the caller's, since one that is handed out is copied. Of the
    // places only the netlist's modules: up to half of a small netlist's step went to the others.
    pub(crate) fn judge(&self, firing: &mut [bool; 64])
        ensures { Judged self.now firing.new self.now.modules }
    {
        for (i, fires) in firing[..self.modules as usize].iter_mut().enumerate() {
            *fires = !self.states[i].marked && self.channels.ready(i as u8 + 1);
        }
    }
}
