// What a sweep makes of a metadata move that was cut between its marks: specs/Mended.antt. The code is in the crates below.
#![tactic(auto)]
