ghost use Rattle.sizing.specs.Trials.{Low};

use marked::Target;
use netlist::Netlist;

// What is looked for: a sizing of the netlist under the caps that reaches the target.
#[derive(Clone, Copy)]
pub(crate) struct Aim<'n, 'c> {
    pub(crate) netlist: &'n Netlist,
    pub(crate) target: Target,
    pub(crate) caps: &'c [u8],
    ghost low: { Low caps.now },
}
