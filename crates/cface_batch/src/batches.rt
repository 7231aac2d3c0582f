// What a batch hands out.
ghost use Rattle.std.specs.Prelude.{◌≡◌};
ghost use Rattle.medium.specs.Fuse.{stored_number};
ghost use Rattle.crossing.specs.Crossing.{units_after};

use batch::Batched;
use crossing::call;
use crossing::call::Told;

// The number of a batch's answer, the units that it left, and the records done.
#[tactic(auto, unfolding(crossing::specs::Crossing::units_after))]
pub fn hand_back(answer: Batched, units: &mut u32, done: &mut u32) -> u8
    ensures value { result ≡ stored_number answer.answer }
    ensures units_after { units.new ≡ units_after answer.answer units.old }
    ensures done_after { done.new ≡ answer.done }
{
    *done = answer.done;
    let stored = answer.answer;
    call::hand_back(stored.map_err(Told::from), units)
}
