/// A channel from a source to a sink module, each given by its number from 1.
#[derive(Clone, Copy, PartialEq, Eq, Debug)]
pub struct Channel {
    pub source: u8,
    pub sink: u8,
}
