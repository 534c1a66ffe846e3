ghost use Rattle.std.specs.Prelude.{◌≡◌, ℕ, ◌+◌, ◌-◌, ◌%◌, ◌<◌, ◌≤◌, Bool, true, ◌⊎◌, List, length, MatchOption, slice_index_or};
ghost use Rattle.queues.specs.Holds.{Sound, Alike, Holds, Gives};

/// A channel and its queue. Its items lie in a part of the item table that starts at `base` and has one entry more than the queue's size;
/// they are put there in turn, and `oldest` counts from `base`. That the part lies within the table is a fact of both, so it stands in the
/// contracts here; `Channels` keeps it of all its queues.
#[derive(Clone, Copy)]
pub struct Queue {
    pub source: u8,
    pub sink: u8,
    pub size: u8,
    pub base: u16,
    pub fill: u8,
    pub oldest: u8,
}

impl Queue {
    /// The oldest item, if there is one.
    pub fn front<T: Copy>(&self, table: &[T]) -> Option<T>
        requires { Sound self.now (length table.now) }
        ensures { MatchOption result (self.now.fill ≡ 0) (λ x. (1 ≤ self.now.fill) × ((d : T) → x ≡ slice_index_or table.now (self.now.base + self.now.oldest) d)) }
    {
        if self.fill == 0 {
            return None;
        }
        Some(table[self.base as usize + self.oldest as usize])
    }

    /// Takes the oldest item, if there is one.
    pub(crate) fn pop<T: Copy>(&mut self, table: &[T]) -> Option<T>
        requires { Sound self.old (length table.now) }
        ensures sound { Sound self.new (length table.now) }
        ensures alike { Alike self.new self.old }
        ensures flow { (ok : Bool) (before : List T) (took put : ℕ) (stream : ℕ → T) → Holds ok before self.old table.now took put stream → took < put → Gives ok result (stream took) × Holds ok before self.new table.now (took + 1) put stream }
    {
        let item = self.front(table)?;
        self.oldest = (self.oldest + 1) % (self.size + 1);
        self.fill -= 1;
        Some(item)
    }

    /// Puts an item behind the others, unless the part of the table is full.
    pub(crate) fn push<T: Copy>(&mut self, table: &mut [T], item: T)
        requires { Sound self.old (length table.old) }
        ensures sound { Sound self.new (length table.new) }
        ensures alike { Alike self.new self.old }
        ensures flow { (ok : Bool) (before : List T) (took put : ℕ) (stream : ℕ → T) → Holds ok before self.old table.old took put stream → self.old.fill ≤ self.old.size → (ok ≡ true → item ≡ stream put) → Holds ok before self.new table.new took (put + 1) stream }
        ensures elsewhere { (k : ℕ) (d : T) → (k < self.old.base) ⊎ (self.old.base + self.old.size < k) → slice_index_or table.new k d ≡ slice_index_or table.old k d }
    {
        if self.fill <= self.size {
            let turn = (self.oldest + self.fill) % (self.size + 1);
            table[self.base as usize + turn as usize] = item;
            self.fill += 1;
        }
    }
}
