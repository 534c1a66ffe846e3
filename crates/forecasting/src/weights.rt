// A free step takes a module to the least of one firing more and, over the places that lead to it, the firings where the place
// starts plus its tokens. So it is a round on the least-total scale, in which the move along a place weighs its tokens, and to stay
// at a module weighs 1.
ghost use Rattle.std.specs.Prelude.{◌≡◌, ◌*◌, ◌<◌, length};
ghost use Rattle.forecasting.specs.Weights.{Lightest, Weights, least_of};

use marked::Place;
use scale::elements::Total;
use scale::scale::Scale;

// The least of a first weight and of the tokens of the places from one module to another.
fn least_tokens(places: &[Place], from: usize, to: usize, first: u32) -> u32
    ensures { result ≡ least_of from to places.now first }
{
    places
        .iter()
        .filter(|place| place.from == from && place.to == to)
        .map(|place| place.tokens)
        .fold(first, |least, tokens| least.min(tokens))
}

// The weight of the move from one module to another.
fn lightest(places: &[Place], from: usize, to: usize) -> Total
    ensures { Lightest places.now (length places.now) from to result.sum }
{
    let first = if from == to { 1 } else { Total::no_way().sum };
    Total {
        sum: least_tokens(places, from, to, first),
    }
}

// Fills the table of the moves between n modules: the move from `u` to `v` stands at `u * n + v`.
pub(crate) fn weigh(places: &[Place], n: usize, weights: &mut [Total])
    requires some { 0 < n }
    requires room { length weights.old ≡ n * n }
    ensures { Weights places.now n weights.new }
{
    for (at, weight) in weights.iter_mut().enumerate() {
        *weight = lightest(places, at / n, at % n);
    }
}
