// Whether a cycle is one that a rating may show, by a reading of places apart from that of the rating.
use netlist::Kind;
use rating::Rating;

// A place: where it starts and ends, and its tokens.
#[derive(Clone, Copy)]
struct Place {
    from: u8,
    to: u8,
    tokens: u64,
}

// The place of this number, which counts from 1: two for each channel, there and back.
fn place_of(rating: &Rating<'_, '_>, number: u16) -> Option<Place> {
    let index = usize::from(number.checked_sub(1)?);
    let channel = rating.netlist().channels().get(index / 2)?;
    let size = rating.sizing().get(index / 2)?;
    let source = rating
        .netlist()
        .modules()
        .get(usize::from(channel.source.checked_sub(1)?))?;
    let items = match source.kind {
        Kind::Block => 1,
        Kind::RelayStation => 0,
    };
    let there = Place {
        from: channel.source,
        to: channel.sink,
        tokens: items,
    };
    let back = Place {
        from: channel.sink,
        to: channel.source,
        tokens: u64::from(*size) + 1 - items,
    };
    Some(if index % 2 == 0 { there } else { back })
}

// A walk along places that has passed some modules, none twice and none below the first.
#[derive(Drop)]
struct Walk {
    first: u8,
    at: u8,
    tokens: u64,
    passed: [bool; 256],
}

impl Walk {
    fn new(first: u8) -> Walk {
        Walk {
            first,
            at: first,
            tokens: 0,
            passed: [false; 256],
        }
    }

    // Goes on along a place, where it may.
    fn step(&mut self, place: Place) -> Option<()> {
        let from = place.from;
        if from != self.at || from < self.first || self.passed[usize::from(from)] {
            return None;
        }
        self.passed[usize::from(from)] = true;
        self.at = place.to;
        self.tokens = self.tokens.wrapping_add(place.tokens);
        Some(())
    }
}

// The walk along the places of these numbers, if there is one from the start of the first.
fn walk_along(rating: &Rating<'_, '_>, numbers: &[u16]) -> Option<Walk> {
    let start = place_of(rating, *numbers.first()?)?;
    let mut walk = Walk::new(start.from);
    for number in numbers {
        walk.step(place_of(rating, *number)?)?;
    }
    Some(walk)
}

// Whether the places of these numbers close, pass no module twice, start at the lowest and have the rate as their mean.
pub fn holds(rating: &Rating<'_, '_>, numbers: &[u16]) -> bool {
    let (p, l) = rating.rate();
    let places = numbers.len() as u64;
    walk_along(rating, numbers).is_some_and(|walk| {
        walk.at == walk.first
            && walk.tokens.wrapping_mul(u64::from(l)) == places.wrapping_mul(u64::from(p))
    })
}
