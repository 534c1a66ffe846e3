ghost use Rattle.std.specs.Prelude.{◌≡◌, ℕ, ◌-◌, ◌<◌, ◌≤◌, Bool, true, false, List, length, OnErr};
ghost use Rattle.calls.specs.Calls.{Call, Count, at_first, done, refusal};
ghost use Rattle.counts.specs.Origins.{puts};
ghost use Rattle.queues.specs.Flows.{more};
ghost use Rattle.queues.specs.Stands.{Stands};
ghost use Rattle.queues.specs.Strict.{Chip};
ghost use Rattle.rating.specs.Ratings.{HoldsRate};
ghost use Rattle.calls.specs.Calls.{fill_of};
ghost use Rattle.run.specs.Making.{chip_of};
ghost use Rattle.run.specs.Replies.{front_item, left_by, reply};
ghost use Rattle.run.specs.Tells.{Tells};
ghost use Rattle.run.specs.Told.{Counts, Framed, Planned};

use crate::inner::{Inner, ModuleState};
use crate::judge::unmark;
use crate::make::{blocks_of, lay};
use crate::refuse::place;
use cores::{CoreSet, Number};
use netlist::{Cause, Refusal};
use queues::{fire, start};
use rating::Rating;

// The most steps that a run takes.
const STEPS: u32 = 100_000_000;

/// A run of a rated netlist over a set of cores. The item table stays with the caller, who hands the same one to every accepted prime,
/// step and front and writes nothing into it between. A run has to be ended: it can be neither dropped nor copied.
pub struct Run<C> {
    cores: C,
    inner: Inner,
}

impl<C: CoreSet> Run<C> {
    /// Makes a run. It copies what it needs of the rating.
    pub fn new(rating: Rating, cores: C) -> Run<C>
        requires { HoldsRate rating }
        ensures { (table : List C.Item) → Tells true C.CoreSet.rules C.CoreSet.held (chip_of rating.entry.netlist.now rating.entry.sizing.now (C.CoreSet.rules cores) (C.CoreSet.held cores)) at_first table result table }
    {
        let netlist = rating.netlist();
        let channels = lay(netlist.channels(), rating.sizing());
        Run {
            cores,
            inner: Inner {
                modules: netlist.modules().len() as u8,
                blocks: blocks_of(netlist),
                channels,
                states: [ModuleState {
                    firings: 0,
                    marked: false,
                }; 64],
                primed: false,
                steps: 0,
            },
        }
    }

    /// Puts each block's reset item into every channel that leads from it.
    pub fn prime(&mut self, table: &mut [C::Item]) -> Result<(), Refusal>
        ensures told { (ok : Bool) (chip : Chip C.Item C.State) (c : Count) (before : List C.Item) → Tells ok C.CoreSet.rules C.CoreSet.held chip c before self.old table.old → (result ≡ reply (refusal chip.net c (Call.prime (length table.old))) tt) × Tells ok C.CoreSet.rules C.CoreSet.held chip (left_by result c (done chip.net c (Call.prime (length table.old)))) before self.new table.new }
        ensures refused { OnErr result ((self.new ≡ self.old) × (table.new ≡ table.old)) }
    {
        if self.inner.primed {
            return Err(Cause::OutOfTurn.into());
        }
        self.inner.room(table.len())?;
        start(
            &mut self.inner.channels,
            &self.cores,
            &self.inner.blocks,
            table,
        );
        self.inner.primed = true;
        Ok(())
    }

    /// Marks a module: it does not fire in the next accepted step.
    pub fn hold(&mut self, v: u8) -> Result<(), Refusal>
        ensures told { (ok : Bool) (chip : Chip C.Item C.State) (c : Count) (before table : List C.Item) → Tells ok C.CoreSet.rules C.CoreSet.held chip c before self.old table → (result ≡ reply (refusal chip.net c (Call.hold v)) tt) × Tells ok C.CoreSet.rules C.CoreSet.held chip (left_by result c (done chip.net c (Call.hold v))) before self.new table }
        ensures refused { OnErr result (self.new ≡ self.old) }
    {
        self.inner.after_prime()?;
        let k = place(v, self.inner.modules)?;
        self.inner.states[k].marked = true;
        Ok(())
    }

    // Fires each module that is named, one after another: what the others do leaves a module that may fire able to. `firing` is as `judge` made it.
    fn fire_all(&mut self, firing: &[bool; 64], table: &mut [C::Item])
        requires { self.old.inner.channels.entries ≤ length table.old }
        ensures framed { Framed self.new.inner self.old.inner }
        ensures told { (ok : Bool) (before : List C.Item) (chip : Chip C.Item C.State) (firings : ℕ → ℕ) (go : ℕ → Bool) → Planned ok before chip firings go self.old.inner (C.CoreSet.rules self.old.cores) (C.CoreSet.held self.old.cores) table.old firing.now → Stands ok before chip (more firings go) (puts chip.net (more firings go)) self.new.inner.channels (C.CoreSet.rules self.new.cores) (C.CoreSet.held self.new.cores) table.new × Counts self.new.inner.modules self.new.inner (more firings go) }
    {
        for (i, fires) in firing[..self.inner.modules as usize].iter().enumerate() {
            if *fires {
                if let Some(v) = Number::new(i as u8 + 1) {
                    let block = self.inner.blocks[i];
                    fire(&mut self.inner.channels, &mut self.cores, v, block, table);
                    self.inner.states[i].firings = self.inner.states[i].firings.wrapping_add(1);
                }
            }
        }
    }

    /// All modules that are ready and not marked fire together; then no module is marked.
    pub fn step(&mut self, table: &mut [C::Item]) -> Result<(), Refusal>
        ensures told { (ok : Bool) (chip : Chip C.Item C.State) (c : Count) (before : List C.Item) → Tells ok C.CoreSet.rules C.CoreSet.held chip c before self.old table.old → (result ≡ reply (refusal chip.net c (Call.step (length table.old))) tt) × Tells ok C.CoreSet.rules C.CoreSet.held chip (left_by result c (done chip.net c (Call.step (length table.old)))) before self.new table.new }
        ensures refused { OnErr result ((self.new ≡ self.old) × (table.new ≡ table.old)) }
    {
        self.inner.after_prime()?;
        self.inner.room(table.len())?;
        if self.inner.steps >= STEPS {
            return Err(Cause::BeyondLimit.into());
        }
        let mut firing = [false; 64];
        self.inner.judge(&mut firing);
        self.fire_all(&firing, table);
        unmark(&mut self.inner.states, self.inner.modules as usize);
        self.inner.steps += 1;
        Ok(())
    }

    /// How often a module has fired.
    pub fn firings(&self, v: u8) -> Result<u32, Refusal>
        ensures { (ok : Bool) (chip : Chip C.Item C.State) (c : Count) (before table : List C.Item) → Tells ok C.CoreSet.rules C.CoreSet.held chip c before self.now table → result ≡ reply (refusal chip.net c (Call.firings v)) (c.firings v) }
    {
        let k = place(v, self.inner.modules)?;
        Ok(self.inner.states[k].firings)
    }

    /// How many items a channel has.
    pub fn fill(&self, channel: u8) -> Result<u8, Refusal>
        ensures { (ok : Bool) (chip : Chip C.Item C.State) (c : Count) (before table : List C.Item) → Tells ok C.CoreSet.rules C.CoreSet.held chip c before self.now table → result ≡ reply (refusal chip.net c (Call.fill channel)) (fill_of chip.net c (channel - 1)) }
    {
        let e = place(channel, self.inner.channels.count)?;
        Ok(self.inner.channels.queues[e].fill)
    }

    /// The oldest item of a channel, if it has one.
    pub fn front(&self, channel: u8, table: &[C::Item]) -> Result<Option<C::Item>, Refusal>
        ensures told { (chip : Chip C.Item C.State) (c : Count) (before : List C.Item) → Tells true C.CoreSet.rules C.CoreSet.held chip c before self.now table.now → result ≡ reply (refusal chip.net c (Call.front channel (length table.now))) (front_item chip c channel) }
        ensures short { (ok : Bool) (chip : Chip C.Item C.State) (c : Count) (before whole : List C.Item) → Tells ok C.CoreSet.rules C.CoreSet.held chip c before self.now whole → length table.now < self.now.inner.channels.entries → result ≡ reply (refusal chip.net c (Call.front channel (length table.now))) (front_item chip c channel) }
    {
        self.inner.after_prime()?;
        let e = place(channel, self.inner.channels.count)?;
        self.inner.room(table.len())?;
        let queue = self.inner.channels.queues[e];
        Ok(queue.front(table))
    }

    /// Ends the run, and gives its cores back.
    pub fn end(self) -> C
        ensures { result ≡ self.cores }
    {
        let Run { cores, inner: _ } = self;
        cores
    }
}
