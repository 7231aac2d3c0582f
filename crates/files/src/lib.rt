// The files of the programs: a geometry record and an image, each read whole into a lent buffer.
//
// A file that is missing or cannot be read is named on standard error with the reason. A record or an image that is wrong is refused with
// 01's number: 6 for the geometry, and then 7 for the image.
#![tactic(auto)]

mod failure;
mod pair;
mod whole;

pub use pair::{LoadError, load};
pub use whole::{ReadError, read};
