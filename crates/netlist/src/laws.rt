ghost use Rattle.netlist.specs.Laws.{FirstFault, NeedsAll, ReadBack, SaidExactly};

/// What is laid out reads as what it was laid out from, and a file says given contents exactly if they are valid and the file is
/// their layout.
pub fn a_file_says_its_layout()
    ensures back { ReadBack }
    ensures exactly { SaidExactly }
{}

/// A fault is the first by the bytes: what follows its bytes does not matter, and a file that is cut before the last of them ends
/// too early. So does a file without fault that is cut anywhere.
pub fn faults_come_first()
    ensures first { FirstFault }
    ensures cut { NeedsAll }
{}
