/// The deepest that a queue may be: the cap where a request names none.
pub const DEEPEST: u8 = 16;

/// What a sizing is asked for: the target A/B, how many slots may be added, and one cap for the queues of all channels.
#[derive(Clone, Copy)]
pub struct Request {
    pub target: (u32, u32),
    pub allowance: usize,
    pub cap: u8,
}
