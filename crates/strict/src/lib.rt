// What the strict mark means for every call that stores: specs/Laws.antt. The code is in the crates below.
#![tactic(auto)]
