ghost use Rattle.std.specs.Prelude.{ℕ, ◌≤◌, length, Decides};
ghost use Rattle.queues.specs.Parts.{Apart, ReadyIn, Sounds};

use crate::queue::Queue;

/// The channels of a netlist with their queues, and how many entries of the item table they own together. A channel is named by its place
/// here, from 0. A run may not fail for memory: there is room for as many channels as a netlist may have, of which the first `count` are used.
#[derive(Drop)]
pub struct Channels {
    pub count: u8,
    pub entries: usize,
    pub queues: [Queue; 192],
    ghost count_high: { count ≤ 192 },
    ghost sounds: { Sounds count queues entries },
    ghost apart: { Apart count queues },
}

/// Whether each of these channels to `v` has an item, and each from it at most as many as its size.
pub fn ready(queues: &[Queue], v: u8) -> bool
    ensures { Decides result (ReadyIn queues.now v (length queues.now)) }
{
    queues.iter().all(|c| (c.sink != v || c.fill > 0) && (c.source != v || c.fill <= c.size))
}

impl Channels {
    ghost use Rattle.std.specs.Prelude.{◌≡◌, ◌+◌, ◌^◌, ◌<◌, Bool, true, List, replicate, slice_set, take, MatchOption, ◌≢◌};
    ghost use Rattle.queues.specs.Holds.{Gives};
    ghost use Rattle.queues.specs.Parts.{blank};
    ghost use Rattle.queues.specs.Flows.{Kept, Flows, Opens, ReadyAt, Sole, bump, more, from, into, queue_at};

    /// No channels yet.
    pub fn new() -> Channels
        ensures count { result.count ≡ 0 }
        ensures entries { result.entries ≡ 0 }
        ensures queues { result.queues ≡ replicate 192 blank }
    {
        let blank = Queue {
            source: 0,
            sink: 0,
            size: 0,
            base: 0,
            fill: 0,
            oldest: 0,
        };
        Channels {
            count: 0,
            entries: 0,
            queues: [blank; 192],
        }
    }

    /// One more channel behind the others, with an empty queue, and its part of the table behind theirs.
    pub fn add(&mut self, source: u8, sink: u8, size: u8)
        requires room { self.old.count < 192 }
        requires small { size ≤ 16 }
        requires near { self.old.entries < 2 ^ 16 }
        ensures count { self.new.count ≡ self.old.count + 1 }
        ensures entries { self.new.entries ≡ self.old.entries + (size + 1) }
        ensures queues { self.new.queues ≡ slice_set self.old.queues self.old.count (record { source = source; sink = sink; size = size; base = self.old.entries; fill = 0; oldest = 0 }) }
    {
        self.queues[self.count as usize] = Queue {
            source,
            sink,
            size,
            base: self.entries as u16,
            fill: 0,
            oldest: 0,
        };
        self.entries += size as usize + 1;
        self.count += 1;
    }

    /// The channels, in their order.
    pub fn queues(&self) -> &[Queue]
        ensures { result.now ≡ take self.now.count self.now.queues }
    {
        &self.queues[..self.count as usize]
    }

    // `Kept` stands in the contract of each call that changes queues: it compares the channels after the call with those before it, and so no type states it. That the table is long enough stands in them too: the table is no part of the channels.

    /// The oldest item of a channel, which leaves it.
    pub(crate) fn take<T: Copy>(&mut self, e: usize, table: &[T]) -> Option<T>
        requires laid { self.old.entries ≤ length table.now }
        requires within { e < self.old.count }
        ensures kept { Kept self.new self.old }
        ensures flow { (ok : Bool) (before : List T) (took put : ℕ → ℕ) (stream : ℕ → ℕ → T) → Flows ok before self.old table.now took put stream → took e < put e → Gives ok result (stream e (took e)) × Flows ok before self.new table.now (bump took e) put stream }
    {
        self.queues[e].pop(table)
    }

    /// Puts an item into a channel, unless its part of the table is full.
    pub(crate) fn put<T: Copy>(&mut self, e: usize, table: &mut [T], item: T)
        requires laid { self.old.entries ≤ length table.old }
        requires within { e < self.old.count }
        ensures kept { Kept self.new self.old }
        ensures flow { (ok : Bool) (before : List T) (took put : ℕ → ℕ) (stream : ℕ → ℕ → T) → Flows ok before self.old table.old took put stream → put e ≤ took e + (queue_at self.old e).size → (ok ≡ true → item ≡ stream e (put e)) → Flows ok before self.new table.new took (bump put e) stream }
    {
        self.queues[e].push(table, item);
    }

    /// Puts an item into each channel that leads from `v`.
    pub(crate) fn scatter<T: Copy>(&mut self, v: u8, table: &mut [T], item: T)
        requires { self.old.entries ≤ length table.old }
        ensures kept { Kept self.new self.old }
        ensures flow { (ok : Bool) (before : List T) (took put : ℕ → ℕ) (stream : ℕ → ℕ → T) → Flows ok before self.old table.old took put stream → Opens ok self.old v item took put stream → Flows ok before self.new table.new took (more put (from self.old v)) stream }
    {
        // By place: the check does not cover `self.queues[..count].iter_mut()`, since the queues stand beside ghost fields; and where a variable
        // borrows them first, nothing is known of the queues after the loop.
        for e in 0..self.count as usize {
            if self.queues[e].source == v {
                self.put(e, table, item);
            }
        }
    }

    /// A channel that leads to `v`.
    pub(crate) fn input(&self, v: u8) -> Option<usize>
        ensures { MatchOption result ((e : ℕ) → e < self.now.count → (queue_at self.now e).sink ≢ v) (λ d. (d < self.now.count) × ((queue_at self.now d).sink ≡ v) × ((k : ℕ) → k < d → (queue_at self.now k).sink ≢ v)) }
    {
        self.queues().iter().position(|queue| queue.sink == v)
    }

    /// The firing of a relay station: its item goes on into each channel that leads from it.
    pub(crate) fn relay<T: Copy>(&mut self, v: u8, table: &mut [T])
        requires { self.old.entries ≤ length table.old }
        ensures kept { Kept self.new self.old }
        ensures flow { (ok : Bool) (before : List T) (took put : ℕ → ℕ) (stream : ℕ → ℕ → T) (d : ℕ) → Flows ok before self.old table.old took put stream → Sole self.old v d → took d < put d → Opens ok self.old v (stream d (took d)) took put stream → Flows ok before self.new table.new (more took (into self.old v)) (more put (from self.old v)) stream }
    {
        if let Some(d) = self.input(v) {
            if let Some(item) = self.take(d, table) {
                self.scatter(v, table, item);
            }
        }
    }

    /// Whether each channel to `v` has an item, and each from it at most as many as its size.
    pub fn ready(&self, v: u8) -> bool
        ensures { Decides result (ReadyAt self.now v self.now.count) }
    {
        ready(self.queues(), v)
    }
}
