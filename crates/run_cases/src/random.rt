// Netlists and lists of requests made by a small generator of numbers, which tools/run_cases.py has as well.
use crate::case::Case;
use drafts::Shape;
use play::Request;
use std::alloc::{AllocError, Global};

#[derive(Drop)]
pub struct Dice {
    state: u32,
}

impl Dice {
    pub fn new(seed: u32) -> Dice {
        Dice { state: seed }
    }

    // A number below n, for n from 1 on.
    pub fn below(&mut self, n: u32) -> u32 {
        self.state = self
            .state
            .wrapping_mul(1_664_525)
            .wrapping_add(1_013_904_223);
        (self.state / 65536).checked_rem(n).unwrap_or(0)
    }

    // The same as a byte.
    fn byte(&mut self, n: u8) -> u8 {
        (self.below(u32::from(n)) % 256) as u8
    }

    // How many entries a call is lent: mostly all.
    fn lent(&mut self) -> usize {
        if self.below(8) == 0 {
            self.below(40) as usize
        } else {
            usize::MAX
        }
    }

    fn request(&mut self, modules: u8, channels: u8) -> Request {
        let kind = self.below(16);
        let v = self.byte(modules.saturating_add(2));
        let e = self.byte(channels.saturating_add(2));
        let lent = self.lent();
        match kind {
            0 => Request::Prime { lent },
            1 | 2 => Request::Hold(v),
            3 | 4 => Request::Firings(v),
            5 | 6 => Request::Fill(e),
            7 | 8 | 9 => Request::Front { channel: e, lent },
            _ => Request::Step { lent },
        }
    }
}

#[derive(Drop)]
pub struct Random {
    modules: u8,
    blocks: u8,
    channels: Vec<(u8, u8)>,
    sizing: Vec<u8>,
    requests: Vec<Request>,
    entries: u32,
}

// Each block but the first is fed by a block before it and each relay station by a module before it, and feeds a block; then some
// channels more that lead to blocks.
fn channels(
    heap: Global,
    dice: &mut Dice,
    modules: u8,
    blocks: u8,
) -> Result<Vec<(u8, u8)>, AllocError> {
    let mut list = Vec::new(heap);
    for before in 1..modules {
        let sources = before.min(blocks);
        let source = if before < blocks { sources } else { before };
        list.push((
            dice.byte(source).saturating_add(1),
            before.saturating_add(1),
        ))?;
    }
    for relay in blocks..modules {
        list.push((relay.saturating_add(1), dice.byte(blocks).saturating_add(1)))?;
    }
    for _ in 0..dice.below(7) {
        let source = dice.byte(modules).saturating_add(1);
        list.push((source, dice.byte(blocks).saturating_add(1)))?;
    }
    Ok(list)
}

impl Random {
    pub fn new(heap: Global, seed: u32) -> Result<Random, AllocError> {
        let mut dice = Dice::new(seed);
        let modules = dice.byte(8).saturating_add(1);
        let blocks = dice.byte(modules).saturating_add(1);
        let list = channels(heap, &mut dice, modules, blocks)?;
        let spare = dice.below(3);
        let sizing: Vec<u8> = list
            .iter()
            .map(|_| dice.byte(4).saturating_add(1))
            .collect(heap)?;
        let entries = sizing.iter().fold(spare, |sum, size| {
            sum.saturating_add(u32::from(*size)).saturating_add(1)
        });
        let few = (list.len() % 256) as u8;
        let mut requests: Vec<Request> = (0..60).map(|_| dice.request(modules, few)).collect(heap)?;
        if let Some(fourth) = requests.get_mut(3) {
            *fourth = Request::Prime { lent: usize::MAX };
        }
        Ok(Random {
            modules,
            blocks,
            channels: list,
            sizing,
            requests,
            entries,
        })
    }

    pub fn case(&self) -> Case<'_, '_, '_> {
        Case {
            shape: Shape {
                modules: self.modules,
                blocks: self.blocks,
                channels: self.channels.as_slice(),
            },
            sizing: self.sizing.as_slice(),
            entries: self.entries,
            requests: self.requests.as_slice(),
        }
    }
}
