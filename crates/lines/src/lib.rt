// Lines of text: what the programs print, and numbers read from arguments.
//
// A line has its line end, and no heap under it. Every line fits: the longest has 126 bytes. The words are put by functions and not by Display,
// since a contract says each byte of them.
#![tactic(auto)]

pub mod argument;
pub mod block;
pub mod line;
pub mod moment;
mod number;
pub mod object;
pub mod refusal;
mod words;
