use crate::cases::{Case, Shown};
use checking::check;
use drafts::netlist_of;
use netlist::{Netlist, ReadError, Refusal};
use rating::rate;
use sizing::size;
use std::alloc::{AllocError, Global};

// What becomes of a file that is read, checked and sized.
pub fn outcome(heap: Global, file: &[u8], case: Case<'_>) -> Result<String, ReadError> {
    let netlist = netlist_of(heap, file)?;
    let mut table = case.present.to_vec(heap)?;
    let text = match sized(&netlist, case, table.as_mut_slice()) {
        Ok(answer) => answer.text(heap, case, table.as_slice()),
        Err(refusal) => refusal_text(heap, refusal, case, table.as_slice()),
    };
    Ok(text?)
}

// How many slots were added, and the rate that the netlist has with them.
#[derive(Clone, Copy)]
struct Answer {
    added: usize,
    rate: (u32, u32),
}

// Sizes a netlist, where the table is the present one, and rates it under what the table is then.
fn sized(netlist: &Netlist, case: Case<'_>, table: &mut [u8]) -> Result<Answer, Refusal> {
    let checked = check(netlist)?;
    let added = size(checked, case.target, case.caps, case.allowance, table)?;
    let mut cycle = [0; 64];
    let mut potentials = [0; 64];
    let rating = rate(checked, table, &mut cycle, &mut potentials)?;
    Ok(Answer {
        added,
        rate: rating.rate(),
    })
}

fn refusal_text(
    heap: Global,
    refusal: Refusal,
    case: Case<'_>,
    table: &[u8],
) -> Result<String, AllocError> {
    let kept = if table == case.present {
        "kept"
    } else {
        "lost"
    };
    format!(in heap; "{refusal}, table {kept}")
}

impl Answer {
    fn text(self, heap: Global, case: Case<'_>, table: &[u8]) -> Result<String, AllocError> {
        let added = self.added;
        let holding = if self.reaches(case.target) && self.adds(case, table) {
            "holds"
        } else {
            "fails"
        };
        let queues = match case.shown {
            Shown::Holding => String::new(heap),
            Shown::Queues => queues_text(heap, case.present, table)?,
        };
        format!(in heap; "added {added}, table {holding}{queues}")
    }

    // Whether the rate is the target at least.
    fn reaches(self, target: (u32, u32)) -> bool {
        let (p, l) = self.rate;
        let (a, b) = target;
        u64::from(p).wrapping_mul(u64::from(b)) >= u64::from(a).wrapping_mul(u64::from(l))
    }

    // Whether each queue is from its present size to its cap, and so many slots were added in all, no more than are allowed.
    fn adds(self, case: Case<'_>, table: &[u8]) -> bool {
        let mut queues = table.iter().zip(case.present).zip(case.caps);
        let within = queues.all(|((size, present), cap)| present <= size && size <= cap);
        let slots = table
            .iter()
            .zip(case.present)
            .map(|(size, present)| usize::from(size.saturating_sub(*present)))
            .fold(0usize, |sum, more| sum.wrapping_add(more));
        within
            && slots == self.added
            && self.added <= case.allowance
            && table.len() == case.present.len()
    }
}

// The queues that became deeper.
fn queues_text(heap: Global, present: &[u8], table: &[u8]) -> Result<String, AllocError> {
    let mut text = String::new(heap);
    for (at, (size, before)) in table.iter().zip(present).enumerate() {
        if size > before {
            write!(text, ", channel {} by {}", at + 1, *size - *before)?;
        }
    }
    Ok(text)
}
