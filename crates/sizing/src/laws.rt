// A law of targets that proofs cite and nothing runs.
ghost use Rattle.sizing.specs.Laws.{RateDecides};

/// Nothing to run: it stands for the law that a target is reached exactly if the rate reaches it.
pub fn the_rate_decides()
    ensures { RateDecides }
{}
