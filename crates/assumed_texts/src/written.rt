// The images of a program's rules and equations.
ghost use Rattle.std.specs.Prelude.{IfOk, OnOk, ◌↔◌, ◌<◌, ◌+◌, IsTrue, length};
ghost use Rattle.rule_core.specs.BoundVariables.{HasBoundVariables};
ghost use Rattle.rule_core.specs.ProgramView.{theory_of};
ghost use Rattle.rule_core.specs.WellSorted.{IsWellSorted};
ghost use Rattle.ml_image.specs.Gained.{HasGained};
ghost use Rattle.assumed_texts.specs.Kinds.{IsRuleAxiom, IsWritten};
ghost use Rattle.assumed_texts.specs.Listing.{IsBefore, IsDefined, Lists};

use ml_image::{equation_image, rule_image};
use ml_pat::{MPat, Names};
use rule_core::{Program, Signature, SymKind};
use std::alloc::{AllocError, Global};

// The images of the rules and of the equations of functions.
pub(crate) fn written_images(
    alloc: Global,
    program: &Program,
    names: &mut Names,
) -> Result<Vec<MPat>, AllocError>
    requires sorted { IsWellSorted (theory_of program.now) }
    requires bound { HasBoundVariables program.now }
    ensures images { IfOk result
        (λ v. Lists (theory_of program.now) names.new (IsWritten (theory_of program.now)) v.items) }
    ensures names { HasGained program.now.sig names.old names.new }
{
    let mut images = rule_images(alloc, program, names)?;
    for function in 0..program.equations.len() {
        add_equations(alloc, program, names, function, &mut images)?;
    }
    Ok(images)
}

// The images of the rules, in order.
fn rule_images(alloc: Global, program: &Program, names: &mut Names) -> Result<Vec<MPat>, AllocError>
    requires sorted { IsWellSorted (theory_of program.now) }
    requires bound { HasBoundVariables program.now }
    ensures images { IfOk result
        (λ v. Lists (theory_of program.now) names.new (IsRuleAxiom (theory_of program.now)) v.items) }
    ensures names { HasGained program.now.sig names.old names.new }
{
    let mut images = Vec::with_capacity(alloc, program.rules.len())?;
    for rule in &program.rules {
        let image = rule_image(alloc, &program.sig, names, rule)?;
        images.push(image)?;
    }
    Ok(images)
}

// Adds the images of the equations of a function.
fn add_equations(
    alloc: Global,
    program: &Program,
    names: &mut Names,
    function: usize,
    images: &mut Vec<MPat>,
) -> Result<(), AllocError>
    requires sorted { IsWellSorted (theory_of program.now) }
    requires bound { HasBoundVariables program.now }
    requires there { function < length program.now.equations.items }
    requires images { Lists (theory_of program.now) names.old
        (IsBefore (theory_of program.now) function) images.old.items }
    ensures images { OnOk result (Lists (theory_of program.now) names.new
        (IsBefore (theory_of program.now) (function + 1)) images.new.items) }
    ensures names { HasGained program.now.sig names.old names.new }
{
    if !is_defined(&program.sig, function) {
        return Ok(());
    }
    let equations = &program.equations[function];
    for equation in equations {
        let image = equation_image(alloc, &program.sig, names, equations, equation)?;
        images.push(image)?;
    }
    Ok(())
}

// Whether the symbol is a function that is defined by equations.
fn is_defined(sig: &Signature, symbol: usize) -> bool
    ensures { IsTrue result ↔ IsDefined sig.now symbol }
{
    let Some(info) = sig.symbols.value(symbol) else {
        return false;
    };
    matches!(info.kind, SymKind::Equations)
}
