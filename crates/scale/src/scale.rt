// What a scale is: elements, among them no way and start, a choice of two, and the extension of one by another.
ghost use Rattle.std.specs.Prelude.{◌≡◌};
ghost use Rattle.scale.specs.Scales.{ScaleOf};

pub trait Scale: Copy {
    // The operations with their laws: each `impl` proves them, and code for every scale may use them and nothing else.
    ghost scale: { ScaleOf Self };

    // What counts for no walk at all.
    fn no_way() -> Self
        ensures { result ≡ scale.no_way };

    // What a walk counts as before its first move.
    fn start() -> Self
        ensures { result ≡ scale.start };

    // What counts where either may be taken.
    fn choice(self, other: Self) -> Self
        ensures { result ≡ scale.choice self other };

    // What counts where one is followed by a move of this weight.
    fn extension(self, by: Self) -> Self
        ensures { result ≡ scale.extension self by };
}
