use crate::cycle::holds;
use checking::check;
use drafts::{netlist_of, spaced};
use netlist::{ReadError, Refusal};
use rating::{Rating, rate};
use std::alloc::{AllocError, Global};

// What the lists hold before a rating: no place has this number, and no potential is above 0.
const NO_PLACE: u16 = 999;

const NO_POTENTIAL: i32 = 7;

// How many entries the two lists of a rating have.
#[derive(Clone, Copy)]
pub struct Rooms {
    pub cycle: usize,
    pub potentials: usize,
}

// The two lists of a rating.
#[derive(Drop)]
struct Lists {
    cycle: Vec<u16>,
    potentials: Vec<i32>,
}

// What becomes of a file that is read, checked and rated under a sizing.
pub fn outcome(
    heap: Global,
    file: &[u8],
    sizing: &[u8],
    rooms: Rooms,
) -> Result<String, ReadError> {
    let netlist = netlist_of(heap, file)?;
    let checked = check(&netlist)?;
    let mut lists = Lists::new(heap, rooms)?;
    let rated = rate(
        checked,
        sizing,
        lists.cycle.as_mut_slice(),
        lists.potentials.as_mut_slice(),
    );
    let text = match rated {
        Ok(rating) => lists.rating_text(heap, &rating),
        Err(refusal) => lists.refusal_text(heap, refusal),
    };
    Ok(text?)
}

impl Lists {
    fn new(heap: Global, rooms: Rooms) -> Result<Lists, AllocError> {
        Ok(Lists {
            cycle: vec![in heap; NO_PLACE; rooms.cycle]?,
            potentials: vec![in heap; NO_POTENTIAL; rooms.potentials]?,
        })
    }

    fn rating_text(&self, heap: Global, rating: &Rating<'_, '_>) -> Result<String, AllocError> {
        let (p, l) = rating.rate();
        let modules = rating.netlist().modules().len();
        let shown = self.cycle_text(rating);
        let potentials = self.potentials.as_slice();
        let values = spaced(heap, &potentials[0..modules.min(potentials.len())])?;
        let kept = self.kept_text(rating.length(), modules);
        format!(in heap; "rate {p}/{l}, {shown}, potentials{values}, rest {kept}")
    }

    fn refusal_text(&self, heap: Global, refusal: Refusal) -> Result<String, AllocError> {
        let kept = self.kept_text(0, 0);
        format!(in heap; "{refusal}, lists {kept}")
    }

    fn cycle_text(&self, rating: &Rating<'_, '_>) -> &'static str {
        match self.cycle.get(0..rating.length()) {
            Some([]) => "no cycle",
            Some(numbers) if holds(rating, numbers) => "cycle holds",
            _ => "cycle fails",
        }
    }

    // Whether the lists still hold what they held, behind so many places and modules.
    fn kept_text(&self, places: usize, modules: usize) -> &'static str {
        let places_kept = self
            .cycle
            .iter()
            .skip(places)
            .all(|number| *number == NO_PLACE);
        let potentials_kept = self
            .potentials
            .iter()
            .skip(modules)
            .all(|value| *value == NO_POTENTIAL);
        if places_kept && potentials_kept {
            "kept"
        } else {
            "lost"
        }
    }
}
