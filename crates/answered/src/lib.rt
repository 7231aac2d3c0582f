// What C callers are promised of a move: the demand of powercut, over the contract of the C function itself. It stands in specs/Move.antt.
#![tactic(auto)]
