// Rounds on both scales, against small tables worked by hand and a ring of 64 modules.
ghost use Rattle.std.specs.Prelude.{◌≡◌, true};

use crate::elements::Total;
use crate::least_total::least_totals;
use crate::rounds::rounds;
use crate::scale::Scale;
use crate::yes_no::reach;
use std::test::Fail;

// From module 0 one may go to 1, from 1 to 2, and from 2 to 1: after an odd number of moves one is at 1, and else at 2.
#[test]
fn reached_by_turns(rt: HostRuntime) {
    let (no, yes) = (false, true);
    let moves = [no, yes, no, no, no, yes, no, yes, no];
    let mut at = [yes, no, no];
    let mut scratch = [no; 3];
    reach(&mut at, &mut scratch, &moves, 3);
    assert_eq!(rt; at, [no, yes, no]);
    reach(&mut at, &mut scratch, &moves, 1);
    assert_eq!(rt; at, [no, no, yes]);
}

// Module 2 is reached straight from 0 for 9, or by way of 1 for 3 + 4, which takes two moves.
#[test]
fn cheaper_by_two_moves(rt: HostRuntime) {
    let (none, stay) = (Total::no_way(), Total::start());
    let (three, four, nine) = (Total { sum: 3 }, Total { sum: 4 }, Total { sum: 9 });
    let weights = [stay, three, nine, none, stay, four, none, none, stay];
    let mut totals = [stay, none, none];
    let mut scratch = [none; 3];
    least_totals(&mut totals, &mut scratch, &weights, 1);
    assert_eq!(rt; totals, [stay, three, nine]);
    least_totals(&mut totals, &mut scratch, &weights, 1);
    assert_eq!(rt; totals, [stay, three, Total { sum: 7 }]);
}

// A sum that would pass 2^32 - 1 stops there, which is no way; one below it does not.
#[test]
fn sums_stop(rt: HostRuntime) {
    let large = Total { sum: u32::MAX - 3 };
    assert_eq!(rt; large.extension(Total { sum: 2 }).sum, u32::MAX - 1);
    assert_eq!(rt; large.extension(Total { sum: 9 }), Total::no_way());
}

// Around a ring of 64 modules, each move weighing 1, the one walk of 64 moves from module 0 comes back to it.
#[test]
fn full_ring(rt: HostRuntime) -> Result<(), Fail> {
    let (none, one) = (Total::no_way(), Total { sum: 1 });
    let mut weights = [none; 4096];
    for u in 0..64 {
        weights[u * 64 + (u + 1) % 64] = one;
    }
    let mut totals = [none; 64];
    totals[0] = Total::start();
    rounds(&mut totals, &mut [none; 64], &weights, 64);
    assert_eq!(rt; totals[0].sum, 64);
    assert_eq!(rt; totals[63], none);
    Ok(())
}

// Two modules, each with a move to the other: the definition of walks itself says that two moves lead back.
fn back_after_two() -> bool
    ensures { result ≡ true }
{
    let mut at = [true, false];
    rounds(&mut at, &mut [false; 2], &[false, true, true, false], 2);
    at[0]
}

#[test]
fn returns_after_two(rt: HostRuntime) {
    assert!(rt; back_after_two());
}
