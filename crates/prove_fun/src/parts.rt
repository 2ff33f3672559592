// The parts of records and of equalities.
ghost use Rattle.std.specs.Prelude.{◌≡◌, ◌<◌, Some, length, slice_get};
ghost use Rattle.ml_pat.specs.Patterns.{Pattern, equal};
ghost use Rattle.rule_core.specs.RecordView.{plain_record};
ghost use Rattle.prove_fun.specs.RecordParts.{children};

use ml_pat::{MForm, MPat};
use rule_core::EvalRecord;

// Returns the record of an argument.
pub(crate) fn child(evaluation: &EvalRecord, i: usize) -> &EvalRecord
    requires { i < length (children (plain_record evaluation.now)) }
    ensures { slice_get (children (plain_record evaluation.now)) i
        ≡ Some (plain_record result.now) }
{
    match evaluation {
        EvalRecord::Ctor(_, records, _) => &records[i],
        EvalRecord::ByHook(_, records, _) => &records[i],
        EvalRecord::Inj(_, _, below, _) => below,
        EvalRecord::ByEquation(used) => &used.args[i],
        EvalRecord::Bound(..) | EvalRecord::Value(_) => unreachable!(),
    }
}

// Returns the two sides of an equality.
pub(crate) fn sides(equality: &MPat) -> (&MPat, &MPat)
    requires { (a b : Pattern) × (equality.now ≡ equal a b) }
    ensures { equality.now ≡ equal result.0.now result.1.now }
{
    match equality.form() {
        MForm::Equal(left, right) => (left, right),
        _ => unreachable!(),
    }
}
