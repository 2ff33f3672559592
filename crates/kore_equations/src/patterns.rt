// What the patterns of an equation mean.
ghost use Rattle.std.specs.Prelude.{◌≡◌, [], map, option_map, IfOk, OnOk};
ghost use Rattle.kore_ast.specs.Plain.{pattern_tree};
ghost use Rattle.term_core.specs.PatternLists.{plain_patterns};
ghost use Rattle.rule_core.specs.ProgramView.{names_of};
ghost use Rattle.rule_core.specs.WellSorted.{IsSignature};
ghost use Rattle.kore_sig.specs.Numbered.{IsNumbered};
ghost use Rattle.kore_check.specs.Folds.{Unfoldeds, unfolded};
ghost use Rattle.kore_check.specs.PartNames.{names_in_all};
ghost use Rattle.kore_check.specs.PatternMeanings.{with_all_variables, AllMean};
ghost use Rattle.kore_shapes.specs.Views.{pattern_at, plain_condition};
ghost use Rattle.kore_equations.specs.ReadableSides.{all_read};
ghost use Rattle.kore_equations.specs.BuiltEquations.{IsFine, AreFine, IsFineTest, AreFineSides};
ghost use Rattle.kore_equations.specs.BuiltEquations.{IsMeantBound, AreTested, AreBuilt};

use kore_ast::Pat;
use kore_axioms::tested;
use kore_check::{Variables, add_names, as_number, build_pattern};
use kore_shapes::Condition;
use rule_core::{Named, Signature};
use std::alloc::{AllocError, Global};
use term_core::RulePat;

/// The patterns of a function's arguments, the names in them, a condition, and the variables of the
/// patterns.
#[derive(Drop)]
pub(crate) struct Sides {
    pub(crate) args: Vec<RulePat>,
    pub(crate) named: Vec<Named>,
    pub(crate) cond: Option<RulePat>,
    pub(crate) vars: Variables,
}

/// What patterns of arguments and a condition mean. They have no fault. Returns none if the patterns
/// have not all variables of the condition.
pub(crate) fn built_sides(
    alloc: Global,
    sig: &Signature,
    pats: &[&Pat],
    condition: Condition<'_>,
) -> Result<Option<Sides>, AllocError>
    requires numbered { IsNumbered sig.now }
    requires signature { IsSignature sig.now }
    requires fine { AreFineSides sig.now (map pattern_at pats.now) (plain_condition condition) }
    ensures { IfOk result
        (AreBuilt sig.now (map pattern_at pats.now) (plain_condition condition.entry)) }
{
    let mut vars = Variables::new(alloc);
    let args = built_patterns(alloc, sig, pats, &mut vars)?;
    let named = argument_names(alloc, sig, pats, &vars)?;
    let Some(cond) = bound_test(alloc, sig, tested(condition), &mut vars)? else {
        return Ok(None);
    };
    Ok(Some(Sides {
        args,
        named,
        cond,
        vars,
    }))
}

/// What the tested pattern means, if there is one. It has no fault. Returns none if it has other
/// variables than these.
fn bound_test(
    alloc: Global,
    sig: &Signature,
    pat: Option<&Pat>,
    vars: &mut Variables,
) -> Result<Option<Option<RulePat>>, AllocError>
    requires numbered { IsNumbered sig.now }
    requires signature { IsSignature sig.now }
    requires fine { IsFineTest sig.now (option_map pattern_at pat) }
    ensures { IfOk result (λ o. (qs : Unfoldeds) → vars.old ≡ with_all_variables sig.now [] qs
        → AreTested sig.now qs (option_map pattern_at pat.entry) vars.new o) }
{
    let Some(pat) = pat else {
        return Ok(Some(None));
    };
    match bound_pattern(alloc, sig, pat, vars)? {
        Some(made) => Ok(Some(Some(made))),
        None => Ok(None),
    }
}

/// What a pattern means by these variables. It has no fault. Returns none if it has others.
pub(crate) fn bound_pattern(
    alloc: Global,
    sig: &Signature,
    pat: &Pat,
    vars: &mut Variables,
) -> Result<Option<RulePat>, AllocError>
    requires numbered { IsNumbered sig.now }
    requires signature { IsSignature sig.now }
    requires fine { IsFine sig.now (unfolded (pattern_tree pat.now)) }
    ensures { IfOk result (λ o. (qs : Unfoldeds) → vars.old ≡ with_all_variables sig.now [] qs
        → IsMeantBound sig.now qs (unfolded (pattern_tree pat.now)) vars.new o) }
{
    let before = vars.len();
    let made = build_pattern(alloc, sig, pat, vars)?;
    if vars.len() == before {
        Ok(Some(made))
    } else {
        Ok(None)
    }
}

/// What these patterns mean. They have no fault. Their new variables are appended to `vars`.
fn built_patterns(
    alloc: Global,
    sig: &Signature,
    pats: &[&Pat],
    vars: &mut Variables,
) -> Result<Vec<RulePat>, AllocError>
    requires numbered { IsNumbered sig.now }
    requires signature { IsSignature sig.now }
    requires fine { AreFine sig.now (all_read (map pattern_at pats.now)) }
    ensures vars { OnOk result
        (vars.new ≡ with_all_variables sig.now vars.old (all_read (map pattern_at pats.now))) }
    ensures means { IfOk result
        (λ made. AllMean sig.now vars.new (all_read (map pattern_at pats.now))
        (plain_patterns made.items)) }
{
    let mut made = Vec::with_capacity(alloc, pats.len())?;
    for pat in pats {
        made.push(build_pattern(alloc, sig, pat, vars)?)?;
    }
    Ok(made)
}

/// The names of parts in these patterns, which are those of the arguments in order, by these
/// variables.
fn argument_names(
    alloc: Global,
    sig: &Signature,
    pats: &[&Pat],
    vars: &Variables,
) -> Result<Vec<Named>, AllocError>
    requires { IsNumbered sig.now }
    ensures { IfOk result (λ named. names_of named.items
        ≡ names_in_all sig.now vars.now [] 0 (all_read (map pattern_at pats.now))) }
{
    let mut named = Vec::new(alloc);
    for (i, pat) in pats.iter().enumerate() {
        let number = as_number(i).ok_or(AllocError)?;
        add_names(alloc, sig, pat, number, vars, &mut named)?;
    }
    Ok(named)
}
