// Items and states as text, and mixed into a sum over many of them.
use cores::{Origin, OriginState};
use std::alloc::{AllocError, Global};

// One number more in a sum that tells two lists apart.
pub fn mix(sum: u32, number: u32) -> u32 {
    (sum ^ number).wrapping_mul(16_777_619)
}

// A method and no Display, since the types are those of other crates: a wrapper for each would be longer than the method.
pub trait Mark: Copy {
    // What an entry of the item table holds at first.
    fn fresh(index: u32) -> Self;

    fn mixed(self, sum: u32) -> u32;

    fn text(self, heap: Global) -> Result<String, AllocError>;
}

impl Mark for u32 {
    fn fresh(index: u32) -> u32 {
        index.wrapping_add(1000)
    }

    fn mixed(self, sum: u32) -> u32 {
        mix(sum, self)
    }

    fn text(self, heap: Global) -> Result<String, AllocError> {
        format!(in heap; "{self}")
    }
}

impl Mark for Origin {
    fn fresh(index: u32) -> Origin {
        Origin {
            module: 200,
            serial: index,
        }
    }

    fn mixed(self, sum: u32) -> u32 {
        mix(mix(sum, u32::from(self.module)), self.serial)
    }

    fn text(self, heap: Global) -> Result<String, AllocError> {
        format!(in heap; "{}.{}", self.module, self.serial)
    }
}

impl Mark for OriginState {
    fn fresh(index: u32) -> OriginState {
        OriginState {
            emits: index,
            last: Origin::fresh(index),
        }
    }

    fn mixed(self, sum: u32) -> u32 {
        self.last.mixed(mix(sum, self.emits))
    }

    fn text(self, heap: Global) -> Result<String, AllocError> {
        let last = self.last.text(heap)?;
        format!(in heap; "{}<{last}", self.emits)
    }
}

// A sum of all items of a list.
pub fn mixed<T: Mark>(list: &[T]) -> u32 {
    list.iter().fold(0, |sum, item| item.mixed(sum))
}
