// The writer of objects.
//
// A writer is a value: the header of the object that it writes, how much payload is stored, and under Word(4) up to three bytes that
// wait for their word to fill. It goes in by value and comes back beside its answer. An object comes to be in four steps: its type, its
// payload, its size, and last the mark that finishes it; so a cut before the mark leaves an unfinished object, which nothing reads.
//
// After a refusal the writer is as it went in. After a power cut it is spent, since what stands on the chip is then no longer what it
// says: every later call on it gives 4.
#![tactic(auto)]

pub mod writer;
