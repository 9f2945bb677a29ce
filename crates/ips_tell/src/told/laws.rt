//! Laws of outcomes, each the contract of a function that does nothing.

ghost use Rattle.std.specs.Prelude.{◌≡◌};
ghost use Rattle.ips_report.specs.declared.outcome.Outcome.{Outcome};
ghost use Rattle.ips_run.specs.Ending as ending;
ghost use Rattle.ips_run.specs.Ending.{HasPayloadFault, TellsAsSaid, claim_of};
ghost use Rattle.ips_run.specs.declared.ending.Ending.{Ending};
ghost use Rattle.ips_tell.specs.told.Told.{IsToldAs, blames_folder, blames_source, blames_spawner, claimed, manner_of, told_as};

/// An outcome claims of the image what the ending does that it tells, where each decision is told by an outcome of its sort.
pub fn outcomes_claim_alike()
    ensures { (x : Ending Outcome) → TellsAsSaid IsToldAs x → HasPayloadFault x → claimed (manner_of (told_as x)) ≡ claim_of x }
{}

/// And it is the fault of the same object.
pub fn outcomes_blame_alike()
    ensures folder { (x : Ending Outcome) → TellsAsSaid IsToldAs x → HasPayloadFault x → blames_folder (manner_of (told_as x)) ≡ ending.is_folder_fault x }
    ensures source { (x : Ending Outcome) → TellsAsSaid IsToldAs x → HasPayloadFault x → blames_source (manner_of (told_as x)) ≡ ending.is_source_fault x }
    ensures spawner { (x : Ending Outcome) → TellsAsSaid IsToldAs x → HasPayloadFault x → blames_spawner (manner_of (told_as x)) ≡ ending.is_spawn_fault x }
{}
