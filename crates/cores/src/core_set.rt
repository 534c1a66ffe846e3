ghost use Rattle.std.specs.Prelude.{◌≡◌, ℕ, ◌≤◌, ◌≢◌};
ghost use Rattle.cores.specs.Rules.{Rules};

use crate::Number;

/// The cores of a chip's blocks. Each number has a state; `rules` says what a core does with it and `held` which state it has.
/// A firing of a block absorbs one item of each channel that leads to it, in the channels' order, and then emits one item.
pub trait CoreSet {
    type Item: Copy;

    type State: Copy;

    ghost rules: { Self → Rules Self.Item Self.State };

    ghost held: { Self → ℕ → Self.State };

    /// The item that a block's channels start with.
    fn reset_item(&self, v: Number) -> Self::Item
        ensures { result ≡ (rules self.now).reset v.value };

    fn state(&self, v: Number) -> Self::State
        ensures { result ≡ held self.now v.value };

    fn absorb(&mut self, v: Number, item: Self::Item)
        ensures own { held self.new v.value ≡ (rules self.old).absorb v.value (held self.old v.value) item }
        ensures others { (w : ℕ) → 1 ≤ w → w ≢ v.value → held self.new w ≡ held self.old w }
        ensures kept { rules self.new ≡ rules self.old };

    fn emit(&mut self, v: Number) -> Self::Item
        ensures item { result ≡ (rules self.old).item v.value (held self.old v.value) }
        ensures own { held self.new v.value ≡ (rules self.old).next v.value (held self.old v.value) }
        ensures others { (w : ℕ) → 1 ≤ w → w ≢ v.value → held self.new w ≡ held self.old w }
        ensures kept { rules self.new ≡ rules self.old };
}
