// Theorems on the words of each form. The function carries them as its contract.
#![tactic(auto)]

ghost use Rattle.layout_laws.specs.WordEnds.{WordEnds};

// Each form ends where its words do.
pub fn word_ends()
    ensures { WordEnds }
{}
