// Calls of functions with hooks: what was recorded of them, as a theorem.
ghost use Rattle.std.specs.Prelude.{◌≡◌, ℕ, List, IfOk, length, map};
ghost use Rattle.ml_pat.specs.Patterns.{Pattern};
ghost use Rattle.term_core.specs.Terms.{leaf};
ghost use Rattle.term_core.specs.Patterns.{ground_pattern};
ghost use Rattle.term_core.specs.Values.{scalar_value, value_of};
ghost use Rattle.term_core.specs.declared.values.Scalar.{Scalar};
ghost use Rattle.rule_core.specs.HookCalls.{AreValues};
ghost use Rattle.rule_core.specs.Records.{result_of, results_of};
ghost use Rattle.rule_core.specs.RecordView.{plain_record};
ghost use Rattle.prove_term.specs.Contexts.{HasGrown};
ghost use Rattle.prove_fun.specs.RecordParts.{children, children_of};
ghost use Rattle.prove_fun.specs.Evaluating.{IsHookCall, IsImage, SaysCall};

use crate::parts::child;
use ml_kernel::Thm;
use prove_term::Cx;
use rule_core::EvalRecord;
use std::alloc::{AllocError, Global};
use term_core::{RulePat, Scalar, SymId, Term, Value, pattern_of};

// Proves that the function of its arguments' values equals the value of the hook. The call has
// `count` arguments.
#[inline(never)]
pub(crate) fn hook_fact(
    alloc: Global,
    cx: &mut Cx<'_>,
    symbol: SymId,
    evaluation: &EvalRecord,
    count: usize,
) -> Result<Thm, AllocError>
    requires call { IsHookCall cx.old.program.sig symbol.0
        (results_of (children_of (plain_record evaluation.now)))
        (result_of (plain_record evaluation.now)) }
    requires count { count ≡ length (children (plain_record evaluation.now)) }
    ensures says { IfOk result (λ t. (image : Pattern) →
        IsImage cx.new (ground_pattern (result_of (plain_record evaluation.now))) image →
        SaysCall cx.new symbol.0 (results_of (children_of (plain_record evaluation.now))) image t) }
    ensures grown { HasGrown cx.old cx.new }
{
    let args = scalars(alloc, evaluation, count)?;
    cx.hook(alloc, symbol, &args)
}

// Returns the values of the arguments.
fn scalars(alloc: Global, evaluation: &EvalRecord, count: usize) -> Result<Vec<Scalar>, AllocError>
    requires values { (ss : List Scalar)
        × AreValues (results_of (children_of (plain_record evaluation.now))) (map scalar_value ss) }
    requires count { count ≡ length (children (plain_record evaluation.now)) }
    ensures { IfOk result (λ v.
        AreValues (results_of (children_of (plain_record evaluation.now)))
        (map scalar_value v.items)) }
{
    let mut values = Vec::with_capacity(alloc, count)?;
    for i in 0..count {
        values.push(scalar(alloc, child(evaluation, i).result())?)?;
    }
    Ok(values)
}

// Returns the value of a term that is a domain value.
fn scalar(alloc: Global, term: &Term) -> Result<Scalar, AllocError>
    requires { (sort : ℕ) × (s : Scalar) × (term.now ≡ leaf sort (scalar_value s)) }
    ensures { IfOk result (λ s. (sort : ℕ) × (term.now ≡ leaf sort (scalar_value s))) }
{
    let RulePat::Value(_, value) = pattern_of(alloc, term)? else {
        unreachable!()
    };
    Ok(plain(&value))
}

// Returns a value that is not a text.
fn plain(value: &Value) -> Scalar
    requires { (s : Scalar) × (value_of value.now ≡ scalar_value s) }
    ensures { scalar_value result ≡ value_of value.now }
{
    match value {
        Value::Int(n) => Scalar::Int(*n),
        Value::Bool(b) => Scalar::Bool(*b),
        Value::Text(_) => unreachable!(),
    }
}
