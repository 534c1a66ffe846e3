use crate::shape::Shape;

/// Two blocks A and B, the relay station rs on the way from A to B, and a channel beside it, as a file with sizes.
pub const SAMPLE: [u8; 25] = [
    0, 3, 0, 1, 65, 0, 1, 66, 1, 2, 114, 115, 0, 3, 1, 3, 3, 2, 1, 2, 0, 3, 1, 1, 1,
];

/// A block without channels.
pub const ALONE: Shape<'static> = Shape {
    modules: 1,
    blocks: 1,
    channels: &[],
};

/// A block whose one channel leads to itself.
pub const ITSELF: Shape<'static> = Shape {
    modules: 1,
    blocks: 1,
    channels: &[(1, 1)],
};

/// Two blocks and the channel from one to the other.
pub const PAIR: Shape<'static> = Shape {
    modules: 2,
    blocks: 2,
    channels: &[(1, 2)],
};

/// Two blocks and a relay station in a ring, whose rate no queue changes.
pub const ROUND: Shape<'static> = Shape {
    modules: 3,
    blocks: 2,
    channels: &[(1, 2), (2, 3), (3, 1)],
};

/// Blocks 1 and 2, and relay station 3 on one of two ways from 1 to 2: the modules and channels of the sample.
pub const TRIANGLE: Shape<'static> = Shape {
    modules: 3,
    blocks: 2,
    channels: &[(1, 3), (3, 2), (1, 2)],
};

/// Blocks 1 to 3, and relay station 4 on one of two ways from 1 to 3.
pub const DIAMOND: Shape<'static> = Shape {
    modules: 4,
    blocks: 3,
    channels: &[(1, 2), (2, 3), (1, 4), (4, 3)],
};

/// Five blocks, and relay stations 6 to 8 on two ways that share modules.
pub const TEN: Shape<'static> = Shape {
    modules: 8,
    blocks: 5,
    channels: &[
        (1, 7),
        (7, 6),
        (6, 4),
        (1, 2),
        (2, 4),
        (2, 3),
        (4, 5),
        (5, 8),
        (8, 3),
        (3, 4),
    ],
};

/// A video decoder with relay stations 16 and 17.
pub const VIDEO: Shape<'static> = Shape {
    modules: 17,
    blocks: 15,
    channels: &[
        (1, 2),
        (2, 17),
        (17, 3),
        (3, 4),
        (4, 5),
        (5, 6),
        (6, 7),
        (7, 8),
        (8, 9),
        (9, 16),
        (16, 11),
        (9, 10),
        (11, 10),
        (10, 8),
        (10, 3),
        (11, 12),
        (12, 13),
        (13, 14),
        (14, 15),
        (15, 5),
        (2, 11),
    ],
};
