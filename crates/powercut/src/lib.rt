// What a loss of power leaves of a move.
//
// The demand is stated in specs/Demand.antt, over the definition of a move that the contract of `moving::move_object` cites; the
// units of a move and their order are in specs/Stores.antt, what follows for an auditor in specs/Answers.antt, and what listings show in
// specs/Listed.antt. What can be done after a cut is in specs/Again.antt; at which cuts the copy's block can still be listed in
// specs/Scans.antt, and scanned in specs/Rescans.antt; computed rows are in specs/Rows.antt. The one function here is that call again,
// with the demand in its contract.
#![tactic(auto)]

ghost use Rattle.std.specs.Prelude.{◌≡◌};
ghost use Rattle.medium.specs.Operation.{run, ended_with};
ghost use Rattle.moving.specs.Moving.{move_object};
ghost use Rattle.powercut.specs.Call.{Survived};

use medium::fuse::{Ended, Fuse};
use medium::geometry::Geometry;
use objects::header::ObjectHeader;
use objects::location::ObjectLocation;

// Moves an object. Whenever the power goes, the original or the copy reads finished and whole, where the demand's conditions are met.
#[tactic(auto, using(crate::proofs::Survive::call_survives))]
pub fn move_object(
    g: Geometry,
    image: &mut [u8],
    f: Fuse,
    h: ObjectHeader,
    to: ObjectLocation,
) -> Ended<ObjectHeader>
    ensures image_after { ended_with result image.new ≡ run f (move_object g h to) image.old }
    ensures survived { Survived g h to image.old f (ended_with result image.new) }
{
    moving::move_object(g, image, f, h, to)
}
