// Computed rows: the worked rows of the format as one table, and those of each layer's branches, over the definitions that the contracts cite.
// The code is in the crates below.
#![tactic(auto)]
