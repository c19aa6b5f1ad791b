// The semantics of the language, and demand 3 over the definitions. The functions carry the theorems as their contracts.
#![tactic(auto)]

ghost use Rattle.semantics.specs.Agreement.{Demand3, Loadable};
ghost use Rattle.semantics.specs.CheckedLaws.{CheckedLaws};
ghost use Rattle.semantics.specs.MeaningLaws.{MeaningLaws};

pub fn demand_three()
    ensures { Demand3 }
{}

// The theorem is about something: every memory that has the image's words but where variables stand is loaded with a start, and every start has
// such a memory (demand 3k).
pub fn start_exists()
    ensures { Loadable }
{}

// What `.CHECKED` changes, and that without it the words, the steps and the condition on subscripts are as they were.
pub fn checked_laws()
    ensures { CheckedLaws }
{}

// What holds of the meaning by itself: what it observes, what becomes of a subscript, and how many passes a `.FOR` makes (M7, M9, M11).
pub fn meaning_laws()
    ensures { MeaningLaws }
{}
