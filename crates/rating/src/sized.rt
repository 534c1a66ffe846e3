ghost use Rattle.std.specs.Prelude.{◌≡◌, Some, None as Nothing, MatchResult};
ghost use Rattle.netlist.specs.Holds.{channels};
ghost use Rattle.rating.specs.Sizings.{sizing_fault};

use crate::sizing::test_sizing;
use netlist::{Netlist, Refusal};

/// A netlist with a sizing that was tested for it, both lent: what an extended graph is made of, and what `rated_cycle` and
/// the search for a slow cycle are asked of.
#[derive(Clone, Copy)]
pub struct SizedNetlist<'n, 's> {
    netlist: &'n Netlist,
    sizing: &'s [u8],
    ghost tested: { sizing_fault (channels netlist.now) sizing.now ≡ Nothing },
}

impl<'n, 's> SizedNetlist<'n, 's> {
    /// The two, where it is known that the test passes the sizing.
    pub fn new(netlist: &'n Netlist, sizing: &'s [u8]) -> SizedNetlist<'n, 's>
        requires { sizing_fault (channels netlist.now) sizing.now ≡ Nothing }
        ensures netlist { result.netlist.now ≡ netlist.now }
        ensures sizing { result.sizing.now ≡ sizing.now }
    {
        SizedNetlist { netlist, sizing }
    }

    /// The two, or the sizing's first fault.
    pub fn test(netlist: &'n Netlist, sizing: &'s [u8]) -> Result<SizedNetlist<'n, 's>, Refusal>
        ensures { MatchResult result (λ s. (s.netlist.now ≡ netlist.now) × (s.sizing.now ≡ sizing.now)) (λ x. sizing_fault (channels netlist.now) sizing.now ≡ Some x) }
    {
        test_sizing(netlist.channels().len(), sizing)?;
        Ok(SizedNetlist::new(netlist, sizing))
    }

    pub fn netlist(&self) -> &'n Netlist
        ensures { result.now ≡ self.now.netlist.now }
    {
        self.netlist
    }

    pub fn sizing(&self) -> &'s [u8]
        ensures { result.now ≡ self.now.sizing.now }
    {
        self.sizing
    }
}
