use netlist::{Channel, Kind};
use std::alloc::{AllocError, Global};

/// A netlist that is drawn up module by module.
#[derive(Drop)]
pub struct Draft {
    kinds: Vec<Kind>,
    channels: Vec<Channel>,
}

impl Draft {
    pub fn new(heap: Global) -> Draft {
        Draft {
            kinds: Vec::new(heap),
            channels: Vec::new(heap),
        }
    }

    /// How many channels there are.
    pub fn channels(&self) -> usize {
        self.channels.len()
    }

    /// Adds a module, and returns its number.
    pub fn add(&mut self, kind: Kind) -> anyhow::Result<u8> {
        self.kinds.push(kind)?;
        Ok(u8::try_from(self.kinds.len())?)
    }

    /// Adds a channel.
    pub fn join(&mut self, source: u8, sink: u8) -> Result<(), AllocError> {
        self.channels.push(Channel { source, sink })?;
        Ok(())
    }

    /// Adds so many modules one after another, the first of them behind a module that is there, and returns the number of the last.
    pub fn run(&mut self, from: u8, kind: Kind, count: usize) -> anyhow::Result<u8> {
        let mut last = from;
        for _ in 0..count {
            let next = self.add(kind)?;
            self.join(last, next)?;
            last = next;
        }
        Ok(last)
    }

    /// Adds a way from one module to another through so many new ones.
    pub fn way(&mut self, from: u8, kind: Kind, count: usize, to: u8) -> anyhow::Result<()> {
        let last = self.run(from, kind, count)?;
        self.join(last, to)?;
        Ok(())
    }

    /// The file of this netlist, without sizes. Every module has the name m.
    pub fn file(&self, heap: Global) -> Result<Vec<u8>, AllocError> {
        let mut file = Vec::new(heap);
        add_count(&mut file, self.kinds.len())?;
        for kind in &self.kinds {
            file.extend_from_slice(&[*kind as u8, 1, b'm'])?;
        }
        add_count(&mut file, self.channels.len())?;
        for channel in &self.channels {
            file.extend_from_slice(&[channel.source, channel.sink])?;
        }
        add_count(&mut file, 0)?;
        Ok(file)
    }
}

// A count of records in two bytes, high byte first.
fn add_count(file: &mut Vec<u8>, count: usize) -> Result<(), AllocError> {
    let [.., high, low] = count.to_be_bytes();
    file.extend_from_slice(&[high, low])?;
    Ok(())
}
