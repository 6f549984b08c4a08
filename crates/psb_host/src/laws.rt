//! What a record tells: honest answers go on, and a lie ends it. So the clauses on what a device holds are
//! not empty, and none rests on an answer that was not honest.
ghost use Rattle.psb_host.specs.Laws.{FileGoesOn, FolderGoesOn, EndsAtALie};

/// A file that answers as an honest one is told after each call.
#[tactic(auto, using(crate::proofs::Honesty::file_goes_on))]
pub fn honest_file_goes_on()
    ensures { FileGoesOn }
{}

/// Folders that answer as honest ones are told after each call.
#[tactic(auto, using(crate::proofs::Honesty::folder_goes_on))]
pub fn honest_folder_goes_on()
    ensures { FolderGoesOn }
{}

/// After an answer that can't be that of what was told, nothing is told any more.
#[tactic(auto, using(crate::proofs::Honesty::ends_at_a_lie))]
pub fn a_lie_ends_the_telling()
    ensures { EndsAtALie }
{}
