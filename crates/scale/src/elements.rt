// The elements of the least-total scale. They stand alone, since the definitions of that scale name them.
ghost use Rattle.std.specs.Prelude.{◌^◌, ◌<◌};

// A walk's total, where 2^32 - 1 says that there is no way. The ghost field lets a law speak of every total with no premise.
// A number stands for no way, and no `Option`: a total is half the size, and one comparison chooses the less of two.
#[derive(Clone, Copy, PartialEq, Eq, PartialOrd, Ord, Debug)]
pub struct Total {
    pub sum: u32,
    ghost fits: { sum < 2 ^ 32 },
}
