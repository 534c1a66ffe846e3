// A case: a netlist under a sizing, a list of requests and an item table, played over a set of cores.
use crate::marks::{Mark, mix, mixed};
use checking::check;
use cores::{CoreSet, Number};
use drafts::{Shape, netlist_of};
use play::{Answer, Exchange, Reply, Request, play};
use rating::rate;
use std::alloc::{AllocError, Global};

#[derive(Clone, Copy)]
pub struct Case<'a, 'b, 'c> {
    pub shape: Shape<'a>,
    pub sizing: &'b [u8],
    pub entries: u32,
    pub requests: &'c [Request],
}

// What came of a case: the exchanges, the states of the modules, and the item table.
#[derive(Drop)]
pub struct Outcome<T, S> {
    pub exchanges: Vec<Exchange<T>>,
    pub states: Vec<S>,
    pub table: Vec<T>,
}

// The requests, unanswered.
fn opened<T: Copy>(heap: Global, requests: &[Request]) -> Result<Vec<Exchange<T>>, AllocError> {
    requests
        .iter()
        .map(|request| Exchange::new(*request))
        .collect(heap)
}

// Plays a list of exchanges on a netlist file. Where the file, the netlist or the sizing is refused, nothing is answered.
fn play_file<C: CoreSet>(
    heap: Global,
    file: &[u8],
    sizing: &[u8],
    cores: C,
    exchanges: &mut [Exchange<C::Item>],
    table: &mut [C::Item],
) -> C {
    let Ok(netlist) = netlist_of(heap, file) else {
        return cores;
    };
    let Ok(checked) = check(&netlist) else {
        return cores;
    };
    let mut cycle = [0; 64];
    let mut potentials = [0; 64];
    match rate(checked, sizing, &mut cycle, &mut potentials) {
        Ok(rating) => play(rating, cores, exchanges, table),
        Err(_) => cores,
    }
}

// The states of the first modules.
fn states_of<C: CoreSet>(
    heap: Global,
    cores: &C,
    modules: u8,
) -> Result<Vec<C::State>, AllocError> {
    (1..=modules)
        .filter_map(Number::new)
        .map(|number| cores.state(number))
        .collect(heap)
}

impl Case<'_, '_, '_> {
    pub fn outcome<C: CoreSet + Drop>(
        self,
        heap: Global,
        cores: C,
    ) -> anyhow::Result<Outcome<C::Item, C::State>>
    where
        C::Item: Mark,
    {
        let file = self.shape.file(heap)?;
        let mut exchanges = opened(heap, self.requests)?;
        let mut table: Vec<C::Item> = (0..self.entries)
            .map(|index| C::Item::fresh(index))
            .collect(heap)?;
        let cores = play_file(
            heap,
            file.as_slice(),
            self.sizing,
            cores,
            exchanges.as_mut_slice(),
            table.as_mut_slice(),
        );
        let states = states_of(heap, &cores, self.shape.modules)?;
        Ok(Outcome {
            exchanges,
            states,
            table,
        })
    }
}

// Not by Display of the reply, whose words are others and which asks for a Display of the item.
fn answer_text<T: Mark>(heap: Global, answer: Option<Answer<T>>) -> Result<String, AllocError> {
    match answer {
        None => format!(in heap; "open"),
        Some(Ok(Reply::Done)) => format!(in heap; "ok"),
        Some(Ok(Reply::Number(n))) => format!(in heap; "{n}"),
        Some(Ok(Reply::Item(Some(item)))) => item.text(heap),
        Some(Ok(Reply::Item(None))) => format!(in heap; "-"),
        Some(Err(why)) => {
            let number = why.cause.number();
            let place = why.place;
            format!(in heap; "r{number}@{place}")
        }
    }
}

fn answer_mixed<T: Mark>(sum: u32, answer: Option<Answer<T>>) -> u32 {
    match answer {
        None => mix(sum, 0),
        Some(Ok(Reply::Done)) => mix(sum, 1),
        Some(Ok(Reply::Number(n))) => mix(mix(sum, 2), n),
        Some(Ok(Reply::Item(Some(item)))) => item.mixed(mix(sum, 3)),
        Some(Ok(Reply::Item(None))) => mix(sum, 4),
        Some(Err(why)) => {
            let place = (why.place % 65536) as u32;
            mix(mix(mix(sum, 5), u32::from(why.cause.number())), place)
        }
    }
}

fn add<T: Mark>(heap: Global, text: &mut String, list: &[T]) -> Result<(), AllocError> {
    for item in list {
        let word = item.text(heap)?;
        write!(text, " {word}")?;
    }
    Ok(())
}

impl<T: Mark, S: Mark> Outcome<T, S> {
    // All answers, states and entries.
    pub fn text(&self, heap: Global) -> Result<String, AllocError> {
        let mut text = String::new(heap);
        for exchange in self.exchanges.as_slice() {
            let word = answer_text(heap, exchange.answer)?;
            write!(text, " {word}")?;
        }
        text.push_str("; states")?;
        add(heap, &mut text, self.states.as_slice())?;
        text.push_str("; table")?;
        add(heap, &mut text, self.table.as_slice())?;
        Ok(text)
    }

    // Three sums: of the answers, the states and the entries.
    pub fn sums(&self) -> (u32, u32, u32) {
        let answers = self
            .exchanges
            .iter()
            .fold(0, |sum, exchange| answer_mixed(sum, exchange.answer));
        (
            answers,
            mixed(self.states.as_slice()),
            mixed(self.table.as_slice()),
        )
    }
}
