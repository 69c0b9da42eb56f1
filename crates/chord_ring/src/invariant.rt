//! What holds of every ring.

ghost use Rattle.std.specs.Prelude.{ℕ};
ghost use Rattle.chord_ring.specs.declared.ring_step.RingStep.{RingStep};
ghost use Rattle.chord_ring.specs.Ring.{IsSafe, CanDepart, KeepsPrincipals, IsOneRing};
ghost use Rattle.chord_ring.specs.Steps.{Ring, Step, IsReached, ring_without};

/// After any steps, and any departures that each leave the others safe: each member's list has a
/// live entry, there is a principal, a principal that is still a member is one still, and the
/// principals are on one ring.
pub fn principals_stand_on_one_ring()
    ensures safe { (ring : Ring) → IsReached ring → IsSafe ring.members }
    ensures kept_by_steps { (old new : Ring) (step : RingStep) → IsReached old →
        Step old step new → KeepsPrincipals old.members new.members }
    ensures kept_by_departures { (old : Ring) (gone : ℕ) → IsReached old →
        CanDepart old.members gone → KeepsPrincipals old.members (ring_without old gone).members }
    ensures one_ring { (ring : Ring) → IsReached ring → IsOneRing ring.members }
{}
