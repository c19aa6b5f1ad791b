// Theorems on what parsing answers. The functions carry them as their contracts.
#![tactic(auto)]

ghost use Rattle.parsing_laws.specs.Numbered.{FailuresNumbered};
ghost use Rattle.parsing_laws.specs.Turns.{TurnsEnough};
ghost use Rattle.parsing_laws.specs.WellFormed.{AcceptedWellFormed};

pub fn failures_numbered()
    ensures { FailuresNumbered }
{}

pub fn accepted_well_formed()
    ensures { AcceptedWellFormed }
{}

pub fn turns_enough()
    ensures { TurnsEnough }
{}
