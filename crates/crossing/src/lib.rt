// What crosses between C and the library: numbers in, values, and numbers out. The C functions themselves are in cface.
//
// Always true: numbers that say no geometry become one that every call refuses with 6; any other's that no value has give 4, behind 6 and
// 7. A function that hands an answer out writes the value only where it is done, and the units that are left in every case.
#![tactic(auto)]

pub mod call;
pub mod hand;
pub mod outs;
pub mod records;
pub mod values;
