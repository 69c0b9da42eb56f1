//! What holds of every list of steps.
ghost use Rattle.std.specs.Prelude.{◌≡◌, ◌⊎◌, ℕ, true};
ghost use Rattle.chord_ring.specs.Ring.{CanDepart, KeepsPrincipals};
ghost use Rattle.chord_ring.specs.Steps.{Ring, IsReached, ring_without};
ghost use Rattle.chord_table.specs.Scenes.{Scene, Lived, Agrees, RingEffect};
ghost use Rattle.chord_table.specs.Shown.{HoldsIn};

use chord_model::laws;
use chord_ring::principals_stand_on_one_ring;

/// From each scene that a list of steps leads to with no crash by force, a step of the world with
/// what it is to the ring, and a crash, keep each principal that is still a member.
pub fn principals_stay()
    ensures steps { (old : Scene) (new : Ring) → Lived old → old.premise ≡ true →
        RingEffect old.ring new → KeepsPrincipals old.ring.members new.members }
    ensures crashes { (old : Scene) (number : ℕ) → Lived old → old.premise ≡ true →
        CanDepart old.ring.members number →
        KeepsPrincipals old.ring.members (ring_without old.ring number).members }
{
    principals_stand_on_one_ring();
}

/// In each scene that a list of steps leads to, the theorem over worlds holds, and the ring's.
pub(crate) fn each_scene_holds()
    ensures { (scene : Scene) → Lived scene → Agrees scene → HoldsIn scene }
{
    laws::headline();
    principals_stand_on_one_ring();
}
