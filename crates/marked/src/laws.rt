// Laws of cycles that proofs cite and nothing runs.
ghost use Rattle.marked.specs.Laws.{SimpleIsShort, SlowHasSimple};

/// Nothing to run: it stands for two laws. Every slow cycle has a slow cycle inside that passes no
/// module twice, and such a cycle has no more places than the graph has modules. So whoever shows that
/// no short cycle is slow has shown it of all.
pub fn short_cycles_decide()
    ensures inside { SlowHasSimple }
    ensures short { SimpleIsShort }
{}
