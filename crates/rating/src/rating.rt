ghost use Rattle.std.specs.Prelude.{◌≡◌};

use netlist::Netlist;

/// A netlist that was rated under a sizing, both lent, so that neither changes while the rating is in use. `rate` alone makes one,
/// and promises what it holds.
// Four fields, and no `SizedNetlist` and `Rated` in one: that would be no plainer, since the contracts of this crate and of the crates
// above name netlist, sizing and rate each, and each would stand a field deeper. A rate is a pair, as rates are compared by cross products.
#[derive(Clone, Copy)]
pub struct Rating<'n, 's> {
    pub(crate) netlist: &'n Netlist,
    pub(crate) sizing: &'s [u8],
    pub(crate) rate: (u32, u32),
    pub(crate) length: usize,
}

impl<'n, 's> Rating<'n, 's> {
    pub fn netlist(&self) -> &'n Netlist
        ensures { result.now ≡ self.now.netlist.now }
    {
        self.netlist
    }

    pub fn sizing(&self) -> &'s [u8]
        ensures { result.now ≡ self.now.sizing.now }
    {
        self.sizing
    }

    /// The rate P/L as the pair of P and L, without a common divisor above 1.
    pub fn rate(&self) -> (u32, u32)
        ensures { result ≡ self.now.rate }
    {
        self.rate
    }

    /// How many places the cycle shown has; 0 at rate 1.
    pub fn length(&self) -> usize
        ensures { result ≡ self.now.length }
    {
        self.length
    }
}
