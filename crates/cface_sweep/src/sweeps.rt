// What a sweep hands out.
ghost use Rattle.std.specs.Prelude.{◌≡◌};
ghost use Rattle.medium.specs.Fuse.{stored_number};
ghost use Rattle.crossing.specs.Crossing.{units_after};

use crossing::call;
use crossing::call::Told;
use sweep::Swept;

// The number of a sweep's answer, the units that it left, and how many objects were deleted: twins, and those that nothing refers to.
#[tactic(auto, unfolding(crossing::specs::Crossing::units_after))]
pub fn hand_back(answer: Swept, units: &mut u32, twins: &mut u32, unreferred: &mut u32) -> u8
    ensures value { result ≡ stored_number answer.answer }
    ensures units_after { units.new ≡ units_after answer.answer units.old }
    ensures twins_after { twins.new ≡ answer.twins }
    ensures unreferred_after { unreferred.new ≡ answer.unreferred }
{
    *twins = answer.twins;
    *unreferred = answer.unreferred;
    let stored = answer.answer;
    call::hand_back(stored.map_err(Told::from), units)
}
