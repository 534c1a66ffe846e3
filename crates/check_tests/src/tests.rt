ghost use Rattle.std.specs.Prelude.{◌≤◌, length};

use checking::check;
use netlist::{CHANNELS, Cause, Netlist, Refusal, read};
use std::alloc::Global;
use std::test::Fail;

const BLOCK: u8 = 0;

const RELAY: u8 = 1;

// The bytes of a file: modules of these kinds, each named A, and these channels.
fn file_of(heap: Global, kinds: &[u8], channels: &[(u8, u8)]) -> Result<Vec<u8>, Fail>
    requires { (length kinds.now ≤ 64) × (length channels.now ≤ 192) }
{
    let mut file = Vec::new(heap);
    file.extend_from_slice(&[0, kinds.len() as u8])?;
    for kind in kinds {
        file.extend_from_slice(&[*kind, 1, b'A'])?;
    }
    file.extend_from_slice(&[0, channels.len() as u8])?;
    for (source, sink) in channels {
        file.extend_from_slice(&[*source, *sink])?;
    }
    file.extend_from_slice(&[0, 0])?;
    Ok(file)
}

// Why the check refuses the netlist of such a file, or None where it passes.
fn refusal_of(heap: Global, kinds: &[u8], channels: &[(u8, u8)]) -> Result<Option<Refusal>, Fail>
    requires { (length kinds.now ≤ 64) × (length channels.now ≤ 192) }
{
    let file = file_of(heap, kinds, channels)?;
    let mut netlist = Netlist::new(heap)?;
    read(heap, file.as_slice(), &mut netlist, &mut [0; CHANNELS])?;
    Ok(check(&netlist).err())
}

fn refused(cause: Cause, place: usize) -> Option<Refusal> {
    Some(Refusal { cause, place })
}

// Channels from module `first` to the next, from there to the next, and so on.
fn lay_row(first: u8, channels: &mut [(u8, u8)])
    requires { (first ≤ 64) × (length channels.old ≤ 64) }
{
    for (at, channel) in channels.iter_mut().enumerate() {
        *channel = (first + at as u8, first + at as u8 + 1);
    }
}

#[test]
fn relay_ends(rt: HostRuntime) -> Result<(), Fail> {
    let heap = rt.alloc();
    let two = [BLOCK, RELAY];
    let loose = refused(Cause::RelayEnds, 2);
    assert_eq!(rt; refusal_of(heap, &two, &[(1, 2), (2, 1)])?, None);
    assert_eq!(rt; refusal_of(heap, &two, &[(2, 1)])?, loose, "no input");
    assert_eq!(rt; refusal_of(heap, &two, &[(1, 2)])?, loose, "no output");
    assert_eq!(rt;
        refusal_of(heap, &two, &[(1, 2), (1, 2), (2, 1)])?,
        loose,
        "parallel inputs"
    );
    let three = [BLOCK, RELAY, RELAY];
    assert_eq!(rt;
        refusal_of(heap, &three, &[(1, 2), (3, 2), (2, 1)])?,
        loose,
        "two inputs, and another one loose"
    );
    Ok(())
}

#[test]
fn not_joined(rt: HostRuntime) -> Result<(), Fail> {
    let heap = rt.alloc();
    assert_eq!(rt; refusal_of(heap, &[BLOCK], &[])?, None);
    assert_eq!(rt;
        refusal_of(heap, &[BLOCK; 2], &[])?,
        refused(Cause::NotJoined, 2)
    );
    assert_eq!(rt;
        refusal_of(heap, &[BLOCK; 3], &[(2, 1)])?,
        refused(Cause::NotJoined, 3)
    );
    assert_eq!(rt;
        refusal_of(heap, &[BLOCK; 3], &[(2, 1), (2, 3)])?,
        None,
        "against directions"
    );
    Ok(())
}

// Module 3 is a relay station that feeds itself. At first module 4 is loose too, and until the end module 2 is not joined.
#[test]
fn first_cause_and_lowest_place(rt: HostRuntime) -> Result<(), Fail> {
    let heap = rt.alloc();
    let kinds = [BLOCK, BLOCK, RELAY, RELAY];
    assert_eq!(rt;
        refusal_of(heap, &kinds, &[(3, 3)])?,
        refused(Cause::RelayEnds, 4)
    );
    let channels = [(3, 3), (1, 4), (4, 1), (3, 2), (3, 1)];
    assert_eq!(rt;
        refusal_of(heap, &kinds, &channels[0..3])?,
        refused(Cause::NotJoined, 2)
    );
    assert_eq!(rt;
        refusal_of(heap, &kinds, &channels)?,
        refused(Cause::RelayRing, 3)
    );
    Ok(())
}

// A block, 62 relay stations and a block, in a row; then the last relay station goes back to the first block.
#[test]
fn full_row(rt: HostRuntime) -> Result<(), Fail> {
    let mut kinds = [RELAY; 64];
    kinds[0] = BLOCK;
    kinds[63] = BLOCK;
    let mut channels = [(0, 0); 63];
    lay_row(1, &mut channels);
    assert_eq!(rt; refusal_of(rt.alloc(), &kinds, &channels)?, None);
    channels[62] = (63, 1);
    assert_eq!(rt;
        refusal_of(rt.alloc(), &kinds, &channels)?,
        refused(Cause::NotJoined, 64)
    );
    Ok(())
}

// A ring of 63 relay stations, one of which feeds the block.
#[test]
fn full_ring(rt: HostRuntime) -> Result<(), Fail> {
    let mut kinds = [RELAY; 64];
    kinds[0] = BLOCK;
    let mut channels = [(0, 0); 64];
    lay_row(2, &mut channels);
    channels[62] = (64, 2);
    channels[63] = (64, 1);
    assert_eq!(rt;
        refusal_of(rt.alloc(), &kinds, &channels)?,
        refused(Cause::RelayRing, 2)
    );
    Ok(())
}
