// What a power cut of a metadata move means for a street that is opened by its name: specs/Street.antt. The code is in the crates below.
#![tactic(auto)]
