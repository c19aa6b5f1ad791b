// The demands as a caller of `compile` and `run` sees them. They are about calls; by the contract of `compile`, and by `run_called` in the crate runs,
// every call is one of these.
ghost use Rattle.compiler.specs.DemandThree.{Demand3Called};
ghost use Rattle.compiler.specs.DemandOne.{Demand1Called};
ghost use Rattle.compiler.specs.ScratchLaws.{ScratchLaws};

// Whatever is handed to `compile` or `run` comes back as one of the ways to end that are set down (demand 1a to 1e).
#[tactic(auto, using(crate::proofs::DemandOne::for_demand_one_called))]
pub fn demand_one_called()
    ensures { Demand1Called }
{}

// From SCRATCH_WORDS words on, scratch makes no difference to the answer and the image of `compile`; fewer is 2 (demand 2i).
#[tactic(auto, using(crate::proofs::ScratchLaws::for_scratch_laws))]
pub fn scratch_laws()
    ensures { ScratchLaws }
{}

// Machine and meaning agree, on whole lists of runs (demand 3a to 3l).
#[tactic(auto, using(crate::proofs::DemandThree::for_demand_three_called))]
pub fn demand_three_called()
    ensures { Demand3Called }
{}
