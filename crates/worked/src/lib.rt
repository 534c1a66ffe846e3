//! Worked netlists. Nothing here runs: the contract states that what is worked out of them by hand holds of the definitions that
//! the contracts of all other crates speak in.
#![tactic(auto)]

ghost use Rattle.worked.specs.Rows.{Worked};

/// All rows of the table in specs/Rows.antt hold: files and their faults, rates, cycles and potentials, sizings, a check and a run.
pub fn worked_netlists_hold()
    ensures { Worked }
{}
