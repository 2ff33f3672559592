// How a claim that was stated is found. A table has the place of each claim that may always be
// cited, under the bytes of its numbers. No two claims have the same bytes. A citation costs time
// linear in the size of what is cited, times the logarithm of how many claims are kept. A claim
// that is not in the table is the last of a run.
ghost use Rattle.std.specs.Prelude.{◌≡◌, ◌+◌, [], ◌∷◌, ◌++◌, IfOk, OnOk};
ghost use Rattle.ml_pat.specs.FormsIn.{forms_in};
ghost use Rattle.mm_claims.specs.CitedAt.{ArePremises};
ghost use Rattle.mm_render.specs.Keys.{all_bytes, number_bytes, numbers, pattern_key};
ghost use Rattle.mm_render.specs.Keys.{statement_key};
ghost use Rattle.mm_render.specs.KeyPlaces.{premise_place_by, stated_at, stated_or_none};
ghost use Rattle.mm_render.specs.PlaceTable.{FormIsAdded, found_at, found_in, premises_at};
ghost use Rattle.mm_render.specs.ClaimView.{last_of, plain_stated_all};
ghost use Rattle.mm_render.specs.VariablesView.{plain_variables};

use crate::claims::Stated;
use crate::variables::Variable;
use ml_pat::{MForm, MPat, Names};
use std::alloc::{AllocError, Global};
use std::collections::BTreeMap;

/// The statement that is being written, and what it may cite.
#[derive(Clone, Copy)]
pub(crate) struct StatementContext<'a> {
    /// The names that its patterns are made of.
    pub(crate) names: &'a Names,
    /// The number of the statement.
    pub(crate) serial: u64,
    /// The claims that may always be cited.
    pub(crate) stated: &'a [Stated],
    /// Their places, by their bytes.
    pub(crate) places: &'a BTreeMap<Vec<u8>, u64>,
    /// The last claim of a run.
    pub(crate) last: &'a Option<Stated>,
    /// The places of the hypotheses of the statement, by their bytes.
    pub(crate) premises: &'a BTreeMap<Vec<u8>, u64>,
}

/// What a citation needs of a claim: the number of its label, and its variables.
#[derive(Clone, Copy)]
pub(crate) struct Citation<'a> {
    pub(crate) number: u64,
    pub(crate) variables: &'a [Variable],
}

/// The claim that was stated before with these hypotheses and this conclusion, or any claim if
/// there is none.
pub(crate) fn found<'a>(
    alloc: Global,
    at: &StatementContext<'a>,
    hypotheses: &[MPat],
    conclusion: &MPat,
) -> Result<Citation<'a>, AllocError>
    ensures number { IfOk result
        (λ cited. cited.number ≡ (found_at at.now hypotheses.now conclusion.now).number) }
    ensures variables { IfOk result (λ cited. plain_variables cited.variables.now ≡
        (found_at at.now hypotheses.now conclusion.now).claim.variables) }
{
    let key = statement_key(alloc, hypotheses, conclusion)?;
    match at.places.get(key.as_slice()) {
        Some(place) => Ok(cited_at(at.stated, *place)),
        None => Ok(cited_last(at.last)),
    }
}

/// The claim at a place.
fn cited_at(claims: &[Stated], place: u64) -> Citation<'_>
    ensures number { result.number ≡ (stated_at (plain_stated_all claims.now) place).number }
    ensures variables { plain_variables result.variables.now ≡
        (stated_at (plain_stated_all claims.now) place).claim.variables }
{
    match claims.get(place as usize) {
        Some(stated) => cited(stated),
        None => Citation {
            number: 0,
            variables: &[],
        },
    }
}

/// The last of a run.
fn cited_last(last: &Option<Stated>) -> Citation<'_>
    ensures number { result.number ≡ (stated_or_none (last_of last.now)).number }
    ensures variables { plain_variables result.variables.now ≡
        (stated_or_none (last_of last.now)).claim.variables }
{
    match last {
        Some(stated) => cited(stated),
        None => Citation {
            number: 0,
            variables: &[],
        },
    }
}

fn cited(stated: &Stated) -> Citation<'_>
    ensures number { result.number ≡ stated.now.number }
    ensures variables { result.variables.now ≡ stated.now.claim.variables.items }
{
    Citation {
        number: stated.number,
        variables: &stated.claim.variables,
    }
}

/// The place of a hypothesis of the statement, or 0 if it is none.
pub(crate) fn premise_of(
    alloc: Global,
    at: &StatementContext<'_>,
    pattern: &MPat,
) -> Result<u64, AllocError>
    ensures { IfOk result (λ place. place ≡ premises_at at.now pattern.now) }
{
    let mut key = Vec::new(alloc);
    push_key(&mut key, alloc, pattern)?;
    Ok(at.premises.get(key.as_slice()).copied().unwrap_or(0))
}

/// The places of hypotheses, by their bytes.
pub(crate) fn premise_places(
    alloc: Global,
    hypotheses: &[MPat],
) -> Result<BTreeMap<Vec<u8>, u64>, AllocError>
    ensures { IfOk result
        (λ places. ArePremises hypotheses.now (premise_place_by (found_in places))) }
{
    let mut places = BTreeMap::new(alloc);
    for (no, hypothesis) in hypotheses.iter().enumerate() {
        let mut key = Vec::new(alloc);
        push_key(&mut key, alloc, hypothesis)?;
        places.insert(key, no as u64)?;
    }
    Ok(places)
}

/// The bytes by which a claim is looked up.
pub(crate) fn statement_key(
    alloc: Global,
    hypotheses: &[MPat],
    conclusion: &MPat,
) -> Result<Vec<u8>, AllocError>
    ensures { IfOk result (λ key. key.items ≡ statement_key hypotheses.now conclusion.now) }
{
    let mut key = Vec::new(alloc);
    push_key(&mut key, alloc, conclusion)?;
    for hypothesis in hypotheses {
        push_key(&mut key, alloc, hypothesis)?;
    }
    Ok(key)
}

/// Adds the bytes of a pattern. A stack replaces recursion.
fn push_key(key: &mut Vec<u8>, alloc: Global, pattern: &MPat) -> Result<(), AllocError>
    ensures { OnOk result (key.new.items ≡ key.old.items ++ pattern_key pattern.now) }
{
    let mut stack = Vec::new(alloc);
    stack.push(pattern)?;
    while let Some(next) = stack.pop() {
        push_form(key, &mut stack, next)?;
    }
    Ok(())
}

/// Adds the bytes of a form's numbers, and puts its parts on a stack, the first on top.
fn push_form<'a>(
    key: &mut Vec<u8>,
    stack: &mut Vec<&'a MPat>,
    pattern: &'a MPat,
) -> Result<(), AllocError>
    ensures { OnOk result (FormIsAdded (numbers pattern.now) (forms_in pattern.now) stack.old.items
        stack.new.items key.old.items key.new.items) }
{
    match pattern.form() {
        MForm::Bot => push_numbers(key, 0, 0, 0),
        MForm::Top => push_numbers(key, 1, 0, 0),
        MForm::Var(x) => push_numbers(key, 2, u64::from(x.0), 0),
        MForm::Meta(i) => push_numbers(key, 3, u64::from(*i), 0),
        MForm::Const(c) => push_numbers(key, 4, c.0, 0),
        MForm::Not(p) => push_over(key, stack, 5, 0, 0, p),
        MForm::Next(p) => push_over(key, stack, 6, 0, 0, p),
        MForm::Ev(p) => push_over(key, stack, 7, 0, 0, p),
        MForm::Fun(p, s) => push_over(key, stack, 8, 0, s.0, p),
        MForm::At(p, s) => push_over(key, stack, 9, 0, s.0, p),
        MForm::Ex(x, s, p) => push_over(key, stack, 10, u64::from(x.0), s.0, p),
        MForm::All(x, s, p) => push_over(key, stack, 11, u64::from(x.0), s.0, p),
        MForm::Imp(p, q) => push_between(key, stack, 12, p, q),
        MForm::And(p, q) => push_between(key, stack, 13, p, q),
        MForm::Or(p, q) => push_between(key, stack, 14, p, q),
        MForm::Equal(p, q) => push_between(key, stack, 15, p, q),
        MForm::Member(p, q) => push_between(key, stack, 16, p, q),
        MForm::App(p, q) => push_between(key, stack, 17, p, q),
    }
}

/// Adds the numbers of a form over one pattern, and puts that pattern on the stack.
fn push_over<'a>(
    key: &mut Vec<u8>,
    stack: &mut Vec<&'a MPat>,
    form: u64,
    variable: u64,
    sort: u64,
    p: &'a MPat,
) -> Result<(), AllocError>
    ensures { OnOk result (FormIsAdded (λ rest. form ∷ variable ∷ sort ∷ numbers p.now rest)
        (forms_in p.now + 1) stack.old.items stack.new.items key.old.items key.new.items) }
{
    push_numbers(key, form, variable, sort)?;
    stack.push(p)?;
    Ok(())
}

/// Adds the number of a form between two patterns, and puts these patterns on the stack.
fn push_between<'a>(
    key: &mut Vec<u8>,
    stack: &mut Vec<&'a MPat>,
    form: u64,
    p: &'a MPat,
    q: &'a MPat,
) -> Result<(), AllocError>
    ensures { OnOk result (FormIsAdded (λ rest. form ∷ 0 ∷ 0 ∷ numbers p.now (numbers q.now rest))
        (forms_in p.now + forms_in q.now + 1) stack.old.items stack.new.items key.old.items
        key.new.items) }
{
    push_numbers(key, form, 0, 0)?;
    stack.push(q)?;
    stack.push(p)?;
    Ok(())
}

/// Adds the bytes of three numbers.
fn push_numbers(key: &mut Vec<u8>, first: u64, second: u64, third: u64) -> Result<(), AllocError>
    ensures { OnOk result
        (key.new.items ≡ key.old.items ++ all_bytes (first ∷ second ∷ third ∷ [])) }
{
    push_number(key, first)?;
    push_number(key, second)?;
    push_number(key, third)
}

/// Adds the bytes of a number. Each byte has seven of its bits, the lowest first. Each byte but the
/// last has 128 added.
fn push_number(key: &mut Vec<u8>, number: u64) -> Result<(), AllocError>
    ensures { OnOk result (key.new.items ≡ key.old.items ++ number_bytes number) }
{
    let mut left = number;
    while left >= 128 {
        key.push((left % 128 + 128) as u8)?;
        left /= 128;
    }
    key.push(left as u8)?;
    Ok(())
}
