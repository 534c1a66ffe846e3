// The cases of small netlists, and what is refused of them.

// A request for a sizing, and how its outcome is shown.
#[derive(Clone, Copy)]
pub struct Case<'a> {
    pub label: &'a str,
    pub target: (u32, u32),
    pub caps: &'a [u8],
    pub allowance: usize,
    pub present: &'a [u8],
    pub shown: Shown,
}

// What is printed of an answer: whether it holds, or the queues that it deepens too, where the rules leave only one answer.
#[derive(Clone, Copy)]
pub enum Shown {
    Holding,
    Queues,
}

// A case of the netlist with two ways. The others say what they change in it.
const D: Case<'static> = Case {
    label: "D, at most 1",
    target: (1, 1),
    caps: &[2; 4],
    allowance: 1,
    present: &[1; 4],
    shown: Shown::Holding,
};

// The rate 1 takes a slot on channel 1 or 2.
pub const DIAMOND_CASES: [Case<'static>; 8] = [
    D,
    Case {
        label: "D, at most 0",
        allowance: 0,
        ..D
    },
    Case {
        label: "D, at most 8",
        allowance: 8,
        ..D
    },
    Case {
        label: "D, caps as present, 3/4",
        target: (3, 4),
        caps: &[1; 4],
        allowance: 8,
        ..D
    },
    Case {
        label: "D, caps as present, 1/1",
        caps: &[1; 4],
        allowance: 8,
        ..D
    },
    Case {
        label: "D, other caps as present",
        caps: &[1, 2, 1, 1],
        allowance: 8,
        shown: Shown::Queues,
        ..D
    },
    Case {
        label: "D, 1/64",
        target: (1, 64),
        caps: &[16; 4],
        allowance: 8,
        ..D
    },
    Case {
        label: "D, 64/64",
        target: (64, 64),
        caps: &[16; 4],
        allowance: 8,
        ..D
    },
];

// Targets are judged before all else.
pub const REFUSED_TARGETS: [Case<'static>; 8] = [
    Case {
        label: "target 0/1",
        target: (0, 1),
        ..D
    },
    Case {
        label: "target 1/0",
        target: (1, 0),
        ..D
    },
    Case {
        label: "target 0/0",
        target: (0, 0),
        ..D
    },
    Case {
        label: "target 2/1",
        target: (2, 1),
        ..D
    },
    Case {
        label: "target 1/65",
        target: (1, 65),
        ..D
    },
    Case {
        label: "target 65/65",
        target: (65, 65),
        ..D
    },
    Case {
        label: "target 4294967295/4294967295",
        target: (u32::MAX, u32::MAX),
        ..D
    },
    Case {
        label: "target 2/1, all else wrong",
        target: (2, 1),
        caps: &[],
        allowance: 9,
        present: &[0, 17],
        ..D
    },
];

// Then the sizing, by its length and then by its bytes.
pub const REFUSED_SIZES: [Case<'static>; 4] = [
    Case {
        label: "3 sizes",
        present: &[1; 3],
        ..D
    },
    Case {
        label: "5 sizes, one of them 0",
        caps: &[2; 5],
        present: &[0, 1, 1, 1, 1],
        ..D
    },
    Case {
        label: "size 0, caps and allowance wrong",
        caps: &[0; 5],
        allowance: 9,
        present: &[1, 1, 0, 1],
        ..D
    },
    Case {
        label: "size 17, then size 0",
        caps: &[16; 4],
        present: &[1, 17, 0, 1],
        ..D
    },
];

// Then the caps likewise, and last the allowance.
pub const REFUSED_CAPS: [Case<'static>; 6] = [
    Case {
        label: "3 caps",
        caps: &[2; 3],
        ..D
    },
    Case {
        label: "5 caps, one of them 17",
        caps: &[17, 2, 2, 2, 2],
        ..D
    },
    Case {
        label: "cap 17",
        caps: &[16, 16, 16, 17],
        ..D
    },
    Case {
        label: "cap below the size",
        caps: &[2, 1, 2, 0],
        allowance: 9,
        present: &[2; 4],
        ..D
    },
    Case {
        label: "at most 9",
        allowance: 9,
        ..D
    },
    Case {
        label: "at most 18446744073709551615",
        caps: &[1; 4],
        allowance: usize::MAX,
        ..D
    },
];

// A case of the ring, whose rate no queue changes.
const RING: Case<'static> = Case {
    label: "ring of 3, 2/3",
    target: (2, 3),
    caps: &[16; 3],
    allowance: 8,
    present: &[1; 3],
    shown: Shown::Holding,
};

// Its rate, and a higher one.
pub const ROUND_CASES: [Case<'static>; 2] = [
    RING,
    Case {
        label: "ring of 3, 3/4",
        target: (3, 4),
        ..RING
    },
];

// A case of a block without channels.
const BLOCK: Case<'static> = Case {
    label: "one block",
    target: (1, 1),
    caps: &[],
    allowance: 0,
    present: &[],
    shown: Shown::Holding,
};

// Tables of no byte, and of one too many.
pub const ALONE_CASES: [Case<'static>; 3] = [
    BLOCK,
    Case {
        label: "a size without channels",
        present: &[1],
        ..BLOCK
    },
    Case {
        label: "a cap without channels",
        caps: &[1],
        ..BLOCK
    },
];

// A case of the netlist of ten channels, whose rate is 3/5 at first.
const WAYS: Case<'static> = Case {
    label: "ten channels, 3/5",
    target: (3, 5),
    caps: &[16; 10],
    allowance: 8,
    present: &[1, 1, 1, 1, 1, 1, 1, 1, 1, 2],
    shown: Shown::Holding,
};

// For 3/4 only a slot from 1 to 2 does; a ring stands against 4/5.
pub const TEN_CASES: [Case<'static>; 4] = [
    WAYS,
    Case {
        label: "ten channels, 3/4",
        target: (3, 4),
        shown: Shown::Queues,
        ..WAYS
    },
    Case {
        label: "ten channels, 4/5",
        target: (4, 5),
        ..WAYS
    },
    Case {
        label: "ten channels, caps as present",
        target: (3, 4),
        caps: &[1, 1, 1, 1, 1, 1, 1, 1, 1, 2],
        ..WAYS
    },
];
