ghost use Rattle.std.specs.Prelude.{◌≤◌};

use queues::Channels;

// What a step changes of a module: how often it has fired, and whether it is marked.
#[derive(Clone, Copy)]
pub(crate) struct ModuleState {
    pub(crate) firings: u32,
    pub(crate) marked: bool,
}

// The records of a run, beside its cores. A run may not fail for memory: there is room for as many modules as a netlist may have.
#[derive(Drop)]
pub(crate) struct Inner {
    pub(crate) modules: u8,
    // Module v is at place v - 1, here and in `states`. Which are blocks stands apart, since `start` takes a list of that alone.
    pub(crate) blocks: [bool; 64],
    pub(crate) states: [ModuleState; 64],
    pub(crate) channels: Channels,
    pub(crate) primed: bool,
    pub(crate) steps: u32,
    ghost modules_high: { modules ≤ 64 },
}
