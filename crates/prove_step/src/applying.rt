// The lemma of a rule at the terms of a substitution.
ghost use Rattle.std.specs.Prelude.{IfOk};
ghost use Rattle.rule_core.specs.Rules.{RewriteRule};
ghost use Rattle.prove_term.specs.Contexts.{HasGrown, StaysIn};
ghost use Rattle.prove_step.specs.Applying.{CanApply, SaysApplied};

use ml_kernel::{Lemma, Thm};
use prove_equation::given;
use prove_schema::{elements, schema_at};
use prove_term::Cx;
use std::alloc::{AllocError, Global};
use term_core::Subst;

// Proves what the lemma says of the terms that are bound to the rule's variables. The condition is
// known to hold.
pub(crate) fn applied(
    alloc: Global,
    cx: &mut Cx<'_>,
    lemma: &Lemma,
    subst: &Subst,
    condition: &Option<Thm>,
) -> Result<Thm, AllocError>
    requires { (r : RewriteRule) × CanApply cx.old r lemma.now subst.now condition.now }
    ensures says { IfOk result (SaysApplied cx.old lemma.now subst.now condition.now cx.new) }
    ensures stays { IfOk result (StaysIn cx.new) }
    ensures grown { HasGrown cx.old cx.new }
{
    let facts = elements(alloc, cx, subst)?;
    let others = given(alloc, condition)?;
    schema_at(alloc, lemma, &facts, &others)
}
