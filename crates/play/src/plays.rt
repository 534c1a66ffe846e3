ghost use Rattle.std.specs.Prelude.{◌≡◌, ℕ, ◌≤◌, min, true, List, length};
ghost use Rattle.calls.specs.Calls.{Count, after, counted_from};
ghost use Rattle.queues.specs.Strict.{Chip};
ghost use Rattle.rating.specs.Ratings.{HoldsRate};
ghost use Rattle.run.specs.Tells.{Tells};
ghost use Rattle.play.specs.Answers.{answer, answered_from, asked, calls_of};
ghost use Rattle.play.specs.Trials.{Played};

use crate::exchange::{Answer, Exchange, Reply, Request};
use cores::CoreSet;
use rating::Rating;
use run::Run;

// How many entries a call is lent that asks for n, of a table of so many. The part itself is lent at each call: a function that
// returns it would have to say what becomes of the table by what is written through it.
fn lent(n: usize, entries: usize) -> usize
    ensures is { result ≡ min n entries }
    ensures within { result ≤ entries }
{
    n.min(entries)
}

// Makes one call. `?` and `Ok`, and no `map`: of a function whose result names the type of the items, `map` gets no proof yet.
fn ask<C: CoreSet>(run: &mut Run<C>, table: &mut [C::Item], request: Request) -> Answer<C::Item>
    ensures { (chip : Chip C.Item C.State) (c : Count) (before : List C.Item) → Tells true C.CoreSet.rules C.CoreSet.held chip c before run.old table.old → (result ≡ answer chip c (asked (length table.old) request)) × Tells true C.CoreSet.rules C.CoreSet.held chip (after chip.net c (asked (length table.old) request)) before run.new table.new }
{
    match request {
        Request::Prime { lent: n } => {
            let n = lent(n, table.len());
            run.prime(&mut table[..n])?;
            Ok(Reply::Done)
        }
        Request::Hold(v) => {
            run.hold(v)?;
            Ok(Reply::Done)
        }
        Request::Step { lent: n } => {
            let n = lent(n, table.len());
            run.step(&mut table[..n])?;
            Ok(Reply::Done)
        }
        Request::Firings(v) => Ok(Reply::Number(run.firings(v)?)),
        Request::Fill(e) => Ok(Reply::Number(u32::from(run.fill(e)?))),
        Request::Front { channel, lent: n } => {
            let n = lent(n, table.len());
            Ok(run.front(channel, &table[..n])?.into())
        }
    }
}

// Makes each call of a list, and puts its answer beside it.
fn ask_all<C: CoreSet>(run: &mut Run<C>, exchanges: &mut [Exchange<C::Item>], table: &mut [C::Item])
    ensures { (chip : Chip C.Item C.State) (c : Count) (before : List C.Item) → Tells true C.CoreSet.rules C.CoreSet.held chip c before run.old table.old → (exchanges.new ≡ answered_from chip (length table.old) c exchanges.old) × Tells true C.CoreSet.rules C.CoreSet.held chip (counted_from chip.net c (calls_of (length table.old) exchanges.old)) before run.new table.new }
{
    // By the place in the list, and not by `iter_mut`: an edit of where the loop begins is then refused for what it does.
    for i in 0..exchanges.len() {
        let exchange = &mut exchanges[i];
        exchange.answer = Some(ask(run, table, exchange.request));
    }
}

/// Makes a run of a rated netlist over a set of cores, makes each call of a list on it and puts its answer beside it, ends the run and
/// gives the set back. The calls work on the table of items, of which each is lent as many entries from the front as its request says.
pub fn play<C: CoreSet>(
    rating: Rating,
    cores: C,
    exchanges: &mut [Exchange<C::Item>],
    table: &mut [C::Item],
) -> C
    requires { HoldsRate rating }
    ensures { Played C.CoreSet.rules C.CoreSet.held rating.entry.netlist.now rating.entry.sizing.now rating.entry.rate.0 rating.entry.rate.1 cores result exchanges.old exchanges.new table.old table.new }
{
    let mut run = Run::new(rating, cores);
    ask_all(&mut run, exchanges, table);
    run.end()
}
