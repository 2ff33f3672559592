// Equations of functions as axioms.
ghost use Rattle.std.specs.Prelude.{◌≡◌, [], IfOk};
ghost use Rattle.rule_core.specs.ProgramView.{function_equation, theory_of};
ghost use Rattle.rule_core.specs.Theories.{equations_of};
ghost use Rattle.ml_image.specs.HasImages.{HasEquationImage};
ghost use Rattle.ml_image.specs.OwnAxioms.{IsEquationFor};
ghost use Rattle.prove_term.specs.Contexts.{HasGrown, StaysIn};
ghost use Rattle.prove_term.specs.EquationAxioms.{SaysEquationOf};

use crate::context::Cx;
use ml_image::equation_image;
use ml_kernel::Thm;
use ml_pat::MPat;
use rule_core::Equation;
use std::alloc::{AllocError, Global};

impl<'p> Cx<'p> {
    /// Returns the image of an equation of a function as a theorem. Each call states a new axiom. A
    /// caller that uses an equation often keeps the theorem, or what follows from it. `AllocError`:
    /// out of memory. After an error the context may have grown.
    pub fn equation_axiom(&mut self, alloc: Global, equation: &Equation) -> Result<Thm, AllocError>
        requires image { HasEquationImage self.old.program.sig
            (equations_of (theory_of self.old.program) equation.now.fun.0) equation.now.fun.0
            (function_equation equation.now) }
        requires own { IsEquationFor (theory_of self.old.program) equation.now.fun.0
            (function_equation equation.now) }
        ensures says { IfOk result
            (λ t. SaysEquationOf self.new equation.now.fun.0 (function_equation equation.now)
            t.conclusion) }
        ensures no_hypotheses { IfOk result (λ t. t.hypotheses ≡ []) }
        ensures stays { IfOk result (StaysIn self.new) }
        ensures grown { HasGrown self.old self.new }
    {
        let image = self.equation_image(alloc, equation)?;
        let no = self.state(image)?;
        self.axiom(alloc, no)
    }

    // Returns the image of an equation.
    fn equation_image(&mut self, alloc: Global, equation: &Equation) -> Result<MPat, AllocError>
        requires image { HasEquationImage self.old.program.sig
            (equations_of (theory_of self.old.program) equation.now.fun.0) equation.now.fun.0
            (function_equation equation.now) }
        requires own { IsEquationFor (theory_of self.old.program) equation.now.fun.0
            (function_equation equation.now) }
        ensures says { IfOk result
            (SaysEquationOf self.new equation.now.fun.0 (function_equation equation.now)) }
        ensures grown { HasGrown self.old self.new }
    {
        let program = self.program;
        let equations = &program.equations[equation.fun.0 as usize];
        equation_image(alloc, &program.sig, &mut self.names, equations, equation)
    }
}
