// An object that is written new at an erased place, cut after any number of units: what stands there, what the place reads as, and what a
// listing and a scan of its block show. A copy is such an object, and so is whatever a writer writes. These are laws over the units that are
// stored, cited by the crates above; there is no code here.
#![tactic(auto)]
