// Fingerprints of patterns. No clause says which numbers they are, and no proof rests on them.
use crate::patterns::{MForm, MPat};

// The fingerprint of the pattern with this form at its root, from those of its parts.
pub(crate) fn fingerprint_of(form: &MForm) -> u64 {
    match form {
        MForm::Bot => 1,
        MForm::Top => 2,
        MForm::Imp(p, q) => of_two(3, p, q),
        MForm::And(p, q) => of_two(4, p, q),
        MForm::Or(p, q) => of_two(5, p, q),
        MForm::Equal(p, q) => of_two(6, p, q),
        MForm::Member(p, q) => of_two(7, p, q),
        MForm::App(p, q) => of_two(8, p, q),
        MForm::Not(p) => mixed(9, p.fingerprint()),
        MForm::Next(p) => mixed(10, p.fingerprint()),
        MForm::Ev(p) => mixed(11, p.fingerprint()),
        MForm::Fun(p, s) => mixed(mixed(12, s.0), p.fingerprint()),
        MForm::At(p, s) => mixed(mixed(13, s.0), p.fingerprint()),
        MForm::Ex(x, s, p) => mixed(mixed(mixed(14, u64::from(x.0)), s.0), p.fingerprint()),
        MForm::All(x, s, p) => mixed(mixed(mixed(15, u64::from(x.0)), s.0), p.fingerprint()),
        MForm::Var(x) => mixed(16, u64::from(x.0)),
        MForm::Meta(i) => mixed(17, u64::from(*i)),
        MForm::Const(c) => mixed(18, c.0),
    }
}

// The number of a form with two parts.
fn of_two(kind: u64, p: &MPat, q: &MPat) -> u64 {
    mixed(mixed(kind, p.fingerprint()), q.fingerprint())
}

// The sum with a number mixed into it. The product mixes each bit into the bits above it, and then
// the upper half is mixed into the lower one.
fn mixed(sum: u64, number: u64) -> u64 {
    let product = (sum ^ number).wrapping_mul(0x9e37_79b9_7f4a_7c15);
    product ^ product >> 32
}
