// Cuts: what a move leaves when the power goes after so many units.
//
// A move copies an object to another place and then deletes it where it was. Up to the unit that finishes the copy only the original is
// whole; with the unit that deletes the original only the copy is. Between these two units both are: the twin.
#![tactic(auto)]

pub mod moment;
