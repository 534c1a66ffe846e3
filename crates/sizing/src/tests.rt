use crate::size;
use checking::check;
use netlist::{Cause, Netlist, Refusal, read};
use std::alloc::Global;
use std::test::Fail;

// Two ways from the block A to the block C: through the block B, and through a relay station.
const TWO_WAYS: [u8; 26] = [
    0, 4, 0, 1, 65, 0, 1, 66, 0, 1, 67, 1, 1, 68, 0, 4, 1, 2, 2, 3, 1, 4, 4, 3, 0, 0,
];

// A ring of two blocks and a relay station.
const RING: [u8; 21] = [
    0, 3, 0, 1, 65, 0, 1, 66, 1, 1, 67, 0, 3, 1, 2, 2, 3, 3, 1, 0, 0,
];

// What a request for a file's netlist answers; `sizing` is the present one.
fn request(
    heap: Global,
    file: &[u8],
    target: (u32, u32),
    caps: &[u8],
    allowance: usize,
    sizing: &mut [u8],
) -> Result<Result<usize, Refusal>, Fail> {
    let mut netlist = Netlist::new(heap)?;
    let mut ones = [0; 4];
    read(heap, file, &mut netlist, &mut ones)?;
    let checked = check(&netlist)?;
    Ok(size(checked, target, caps, allowance, sizing))
}

fn refused(cause: Cause, place: usize) -> Result<usize, Refusal> {
    Err(Refusal { cause, place })
}

#[test]
fn adds_one_slot(rt: HostRuntime) -> Result<(), Fail> {
    let mut sizing = [1; 4];
    let answer = request(rt.alloc(), &TWO_WAYS, (1, 1), &[2; 4], 1, &mut sizing)?;
    assert_eq!(rt; answer, Ok(1));
    assert_eq!(rt;
        (sizing[0], sizing[1]) == (2, 1) || (sizing[0], sizing[1]) == (1, 2),
        true
    );
    assert_eq!(rt; (sizing[2], sizing[3]), (1, 1));
    Ok(())
}

#[test]
fn keeps_the_table(rt: HostRuntime) -> Result<(), Fail> {
    let mut sizing = [1; 4];
    let answer = request(rt.alloc(), &TWO_WAYS, (1, 1), &[2; 4], 0, &mut sizing)?;
    assert_eq!(rt; answer, refused(Cause::Unreachable, 0));
    assert_eq!(rt; sizing, [1; 4]);
    Ok(())
}

#[test]
fn a_ring_has_its_own_rate(rt: HostRuntime) -> Result<(), Fail> {
    let mut sizing = [1; 3];
    assert_eq!(rt;
        request(rt.alloc(), &RING, (2, 3), &[16; 3], 8, &mut sizing)?,
        Ok(0)
    );
    let answer = request(rt.alloc(), &RING, (3, 4), &[16; 3], 8, &mut sizing)?;
    assert_eq!(rt; answer, refused(Cause::Unreachable, 0));
    assert_eq!(rt; sizing, [1; 3]);
    Ok(())
}

#[test]
fn refuses_in_order(rt: HostRuntime) -> Result<(), Fail> {
    let heap = rt.alloc();
    let mut low = [1, 0, 1];
    assert_eq!(rt;
        request(heap, &RING, (3, 2), &[1; 3], 9, &mut low)?,
        refused(Cause::TargetOutOfRange, 0)
    );
    assert_eq!(rt;
        request(heap, &RING, (1, 2), &[1; 2], 9, &mut low)?,
        refused(Cause::SizesOutOfRange, 2)
    );
    let mut sizing = [2, 2, 2];
    assert_eq!(rt;
        request(heap, &RING, (1, 2), &[2, 2, 1], 9, &mut sizing)?,
        refused(Cause::SizesOutOfRange, 3)
    );
    assert_eq!(rt;
        request(heap, &RING, (1, 2), &[2; 3], 9, &mut sizing)?,
        refused(Cause::AllowanceOutOfRange, 0)
    );
    Ok(())
}
