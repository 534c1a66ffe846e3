use crate::channel::Channel;
use crate::kind::Kind;

/// One record of a file. A module's name is the part of the file where it stands.
#[derive(Clone, Copy)]
pub enum Record<'f> {
    Module { kind: Kind, name: &'f str },
    Channel(Channel),
    Size(u8),
}
