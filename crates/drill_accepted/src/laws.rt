// That the texts of a drill are accepted.
ghost use Rattle.drill_accepted.specs.DrillAcceptance.{DrillIsAccepted, DrillTermIsAccepted};
ghost use Rattle.drill_accepted.specs.DrillAcceptance.{DrillIsNotRefused, DrillTermIsNotRefused};

use drill_gen::drill_laws;
use kore_rules::acceptance_laws;
use kore_sig::signature_laws;
use std::alloc::Global;

/// Has no effect at run time. It states that the definition of a drill of at most a thousand steps
/// is accepted, and its term as a term of that, so that neither is refused. The allocator is never
/// asked; `acceptance_laws` says why it is wanted.
pub fn drill_acceptance_laws(alloc: Global)
    ensures definition { DrillIsAccepted }
    ensures term { DrillTermIsAccepted }
    ensures unrefused { DrillIsNotRefused }
    ensures unrefused_term { DrillTermIsNotRefused }
{
    acceptance_laws(alloc);
    signature_laws();
    drill_laws();
}
