ghost use Rattle.std.specs.Prelude.{◌≡◌, ℕ, ◌≤◌, Bool, true, ◌≢◌, List, length};
ghost use Rattle.queues.specs.Flows.{Kept, Flows, Feeds, Starts, by_block, bump, more, into, queue_at};
ghost use Rattle.counts.specs.Origins.{Enabled, puts};
ghost use Rattle.queues.specs.Strict.{Chip, intake};
ghost use Rattle.queues.specs.Stands.{Stands};

use crate::channels::Channels;
use cores::{CoreSet, Number};

/// A block absorbs the oldest item of each channel that leads to it.
pub(crate) fn gather<C: CoreSet>(
    channels: &mut Channels,
    cores: &mut C,
    v: Number,
    table: &[C::Item],
)
    requires { channels.old.entries ≤ length table.now }
    ensures kept { Kept channels.new channels.old }
    ensures rules { C.CoreSet.rules cores.new ≡ C.CoreSet.rules cores.old }
    ensures others { (u : ℕ) → 1 ≤ u → u ≢ v.value → C.CoreSet.held cores.new u ≡ C.CoreSet.held cores.old u }
    ensures flow { (ok : Bool) (before : List C.Item) (took put : ℕ → ℕ) (stream : ℕ → ℕ → C.Item) → Flows ok before channels.old table.now took put stream → Feeds channels.old v.value took put → Flows ok before channels.new table.now (more took (into channels.old v.value)) put stream × (ok ≡ true → C.CoreSet.held cores.new v.value ≡ intake (C.CoreSet.rules cores.old).absorb (λ e. (queue_at channels.old e).sink) (λ e. stream e (took e)) v.value (C.CoreSet.held cores.old v.value) channels.old.count) }
{
    // By place, as in `scatter`: each turn changes a queue of the channels, which a loop over the queues would hold.
    for e in 0..channels.count as usize {
        if channels.queues[e].sink == v.get() {
            if let Some(item) = channels.take(e, table) {
                cores.absorb(v, item);
            }
        }
    }
}

/// The firing of one module. That it is a block is told by a `bool`: queues know no netlist, and so no kinds. The channels and the cores are
/// fields of a run and the table is its caller's, so they come one by one: a struct of the three would be made for this call alone.
pub fn fire<C: CoreSet>(
    channels: &mut Channels,
    cores: &mut C,
    v: Number,
    block: bool,
    table: &mut [C::Item],
)
    requires { channels.old.entries ≤ length table.old }
    ensures kept { Kept channels.new channels.old }
    ensures told { (ok : Bool) (before : List C.Item) (chip : Chip C.Item C.State) (firings : ℕ → ℕ) → Stands ok before chip firings (puts chip.net firings) channels.old (C.CoreSet.rules cores.old) (C.CoreSet.held cores.old) table.old → block ≡ chip.net.block v.value → Enabled chip.net firings v.value → Stands ok before chip (bump firings v.value) (puts chip.net (bump firings v.value)) channels.new (C.CoreSet.rules cores.new) (C.CoreSet.held cores.new) table.new }
{
    if block {
        gather(channels, cores, v, table);
        let item = cores.emit(v);
        channels.scatter(v.get(), table, item);
    } else {
        channels.relay(v.get(), table);
    }
}

/// Puts each block's reset item into every channel that leads from it. The blocks come as a run keeps them, one place for each number that a
/// module may have: so each `Number` has its place.
pub fn start<C: CoreSet>(
    channels: &mut Channels,
    cores: &C,
    blocks: &[bool; 64],
    table: &mut [C::Item],
)
    requires { channels.old.entries ≤ length table.old }
    ensures kept { Kept channels.new channels.old }
    ensures flow { (ok : Bool) (before : List C.Item) (took put : ℕ → ℕ) (stream : ℕ → ℕ → C.Item) → Flows ok before channels.old table.old took put stream → Starts ok channels.old blocks.now (C.CoreSet.rules cores.now).reset took put stream → Flows ok before channels.new table.new took (more put (by_block channels.old blocks.now)) stream }
{
    // By place, as in `gather`.
    for e in 0..channels.count as usize {
        if let Some(v) = Number::new(channels.queues[e].source) {
            if blocks[v.index()] {
                let item = cores.reset_item(v);
                channels.put(e, table, item);
            }
        }
    }
}
