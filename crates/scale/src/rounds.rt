// Rounds over modules: after k of them, each module has the choice over all walks of k moves that end there.
ghost use Rattle.std.specs.Prelude.{◌≡◌, ℕ, ◌<◌, length};
ghost use Rattle.scale.specs.Arrivals.{arrival};
ghost use Rattle.scale.specs.Counts.{element};
ghost use Rattle.scale.specs.Rounds.{Fitting, AllWalks, EveryWalk, AnyOrder};

use crate::scale::Scale;

// Sets every module to no way, before the first move is added.
fn clear<S: Scale>(next: &mut [S])
    ensures { (v : ℕ) → v < length next.old → element S.scale next.new v ≡ S.scale.no_way }
{
    let none = S::no_way();
    next.fill_with(|| none);
}

// Adds the moves out of one module, whose element is `from`; `row` has the weight of the move to each module. A row of the table
// stands side by side, as `next` does, so the compiler can make several of these steps at once.
fn depart<S: Scale>(from: S, row: &[S], next: &mut [S])
    requires { length row.now ≡ length next.old }
    ensures { (v : ℕ) → v < length next.old → element S.scale next.new v ≡ S.scale.choice (element S.scale next.old v) (S.scale.extension from (element S.scale row.now v)) }
{
    // No `zip` over `iter_mut`: of what is written through it a proof knows nothing; `enumerate` it knows.
    for (v, arrived) in next.iter_mut().enumerate() {
        *arrived = arrived.choice(from.extension(row[v]));
    }
}

// Writes into `next` what comes to each module by one move.
fn advance<S: Scale>(elements: &[S], weights: &[S], next: &mut [S])
    requires { Fitting elements.now next.old weights.now }
    ensures { (v : ℕ) → v < length elements.now → element S.scale next.new v ≡ arrival S.scale elements.now weights.now v }
{
    clear(next);
    // No `zip` of the elements with `weights.chunks_exact(elements.len())`: it asks for a length above 0, so a branch for no modules
    // would come first.
    let mut rows = weights;
    for from in elements {
        let (row, rest) = rows.split_at(elements.len());
        depart(*from, row, next);
        rows = rest;
    }
}

// One round: each module takes what comes to it by one move. A function of its own: with its body written in the loop of `rounds`, a
// million rounds of 64 modules took a fifth longer.
fn round<S: Scale>(elements: &mut [S], scratch: &mut [S], weights: &[S])
    requires { Fitting elements.old scratch.old weights.now }
    ensures { (v : ℕ) → v < length elements.old → element S.scale elements.new v ≡ arrival S.scale elements.old weights.now v }
{
    advance(elements, weights, scratch);
    elements.copy_from_slice(scratch);
}

// `k` rounds: each module takes the choice over all walks of `k` moves that end there, each counted as the element of its first
// module extended by the weights of its moves in order. Of n modules, the move from `u` to `v` has the weight
// `weights[u * n + v]`. `scratch` has room for one element of each module; what is left in it is open.
// (The three lists are no struct with `Fitting` as its invariant: `reach` and `least_totals` are given slices, and to make a struct of
// them each would have to ask for `Fitting` as it does now.)
pub fn rounds<S: Scale>(elements: &mut [S], scratch: &mut [S], weights: &[S], k: u32)
    requires { Fitting elements.old scratch.old weights.now }
    ensures listed { AllWalks S.scale elements.old weights.now k elements.new }
    ensures every_walk { EveryWalk (length elements.old) k }
    ensures any_order { AnyOrder S.scale elements.old weights.now k elements.new }
{
    for _ in 0..k {
        round(elements, scratch, weights);
    }
}
