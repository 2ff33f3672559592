// The variables that occur in patterns, each once, in the order of first occurrence.
ghost use Rattle.std.specs.Prelude.{◌≡◌, ◌+◌, [], ◌∷◌, ◌++◌, IfOk, OnOk, flat_map};
ghost use Rattle.ml_pat.specs.FormsIn.{forms_in};
ghost use Rattle.mm_claims.specs.ClaimVariables.{claim_variables, variables_in};
ghost use Rattle.mm_claims.specs.AddedVariables.{added};
ghost use Rattle.mm_claims.specs.Variables.{AreNumbered, has_variable, object_variable};
ghost use Rattle.mm_render.specs.VariablesView.{AreNumbersOf, HaveNumbers, PutsVariables};
ghost use Rattle.mm_render.specs.VariablesView.{VariablesAreTaken, plain_variables, variable_of};

use ml_pat::{MForm, MPat, VarNo};
use std::alloc::{AllocError, Global};
use std::collections::BTreeSet;

/// A variable of a statement.
#[derive(Clone, Copy)]
pub(crate) enum Variable {
    /// An object variable.
    Object(VarNo),
    /// A pattern variable, with its number.
    Pattern(u32),
}

/// Variables in the order in which they were first added, each once.
#[derive(Drop)]
pub(crate) struct VariableList {
    all: Vec<Variable>,
    // The numbers of the object variables among them, and of the pattern variables.
    objects: BTreeSet<u32>,
    patterns: BTreeSet<u32>,
    ghost numbers: { AreNumbersOf objects patterns (plain_variables all.items) },
    ghost numbered: { HaveNumbers (plain_variables all.items) },
}

impl VariableList {
    ghost use Rattle.mm_render.specs.ListedVariables.{listed};

    /// No variables. Takes no memory yet.
    pub(crate) fn new(alloc: Global) -> Self
        ensures { listed result ≡ [] }
    {
        VariableList {
            all: Vec::new(alloc),
            objects: BTreeSet::new(alloc),
            patterns: BTreeSet::new(alloc),
        }
    }

    /// These variables.
    pub(crate) fn from_variables(alloc: Global, variables: &[Variable]) -> Result<Self, AllocError>
        ensures { IfOk result (λ list. listed list ≡ plain_variables variables.now) }
    {
        let mut list = VariableList::new(alloc);
        for variable in variables {
            list.push(*variable)?;
        }
        Ok(list)
    }

    /// The variables of the list.
    pub(crate) fn into_variables(self) -> Vec<Variable>
        ensures { plain_variables result.items ≡ listed self }
    {
        self.all
    }

    /// Adds a variable after the others, if it is not among them.
    pub(crate) fn add(&mut self, variable: Variable) -> Result<(), AllocError>
        ensures { OnOk result
            (listed self.new ≡ added (listed self.old) (variable_of variable ∷ [])) }
    {
        if self.has(variable) {
            return Ok(());
        }
        self.push(variable)
    }

    /// Adds a variable after the others.
    fn push(&mut self, variable: Variable) -> Result<(), AllocError>
        ensures { OnOk result (listed self.new ≡ listed self.old ++ variable_of variable ∷ []) }
    {
        self.all.reserve(1)?;
        match variable {
            Variable::Object(x) => self.objects.insert(x.0)?,
            Variable::Pattern(i) => self.patterns.insert(i)?,
        };
        self.all.push(variable).unwrap();
        Ok(())
    }

    /// Whether it is one of them.
    fn has(&self, variable: Variable) -> bool
        ensures { result ≡ has_variable (listed self.now) (variable_of variable) }
    {
        match variable {
            Variable::Object(x) => self.objects.contains(&x.0),
            Variable::Pattern(i) => self.patterns.contains(&i),
        }
    }

    /// Adds the variables that occur in a pattern, bound or free. A stack replaces recursion.
    pub(crate) fn add_all(&mut self, alloc: Global, pattern: &MPat) -> Result<(), AllocError>
        ensures { OnOk result
            (listed self.new ≡ added (listed self.old) (variables_in pattern.now)) }
    {
        let mut stack = Vec::new(alloc);
        stack.push(pattern)?;
        while let Some(next) = stack.pop() {
            self.take_form(&mut stack, next)?;
        }
        Ok(())
    }

    /// Adds the variable of a form, and puts its parts on a stack, the first on top.
    fn take_form<'a>(
        &mut self,
        stack: &mut Vec<&'a MPat>,
        pattern: &'a MPat,
    ) -> Result<(), AllocError>
        ensures { OnOk result (VariablesAreTaken (variables_in pattern.now) (forms_in pattern.now)
            stack.old.items stack.new.items (listed self.old) (listed self.new)) }
    {
        match pattern.form() {
            MForm::Bot | MForm::Top | MForm::Const(_) => Ok(()),
            MForm::Var(x) => self.add(Variable::Object(*x)),
            MForm::Meta(i) => self.add(Variable::Pattern(*i)),
            MForm::Not(p) | MForm::Next(p) | MForm::Ev(p) | MForm::Fun(p, _) | MForm::At(p, _) =>
                put_one(stack, p),
            MForm::Ex(x, _, p) | MForm::All(x, _, p) => self.take_quantifier(stack, *x, p),
            MForm::Imp(p, q)
            | MForm::And(p, q)
            | MForm::Or(p, q)
            | MForm::Equal(p, q)
            | MForm::Member(p, q)
            | MForm::App(p, q) => put_two(stack, p, q),
        }
    }

    /// Adds the variable of a quantifier, and puts its body on a stack.
    fn take_quantifier<'a>(
        &mut self,
        stack: &mut Vec<&'a MPat>,
        x: VarNo,
        body: &'a MPat,
    ) -> Result<(), AllocError>
        ensures { OnOk result (VariablesAreTaken (object_variable x.0 ∷ variables_in body.now)
            (forms_in body.now + 1) stack.old.items stack.new.items (listed self.old)
            (listed self.new)) }
    {
        self.add(Variable::Object(x))?;
        put_one(stack, body)
    }
}

/// Puts the part of a form on a stack.
fn put_one<'a>(stack: &mut Vec<&'a MPat>, p: &'a MPat) -> Result<(), AllocError>
    ensures { OnOk result
        (PutsVariables (variables_in p.now) (forms_in p.now + 1) stack.old.items stack.new.items) }
{
    stack.push(p)?;
    Ok(())
}

/// Puts the parts of a form on a stack.
fn put_two<'a>(stack: &mut Vec<&'a MPat>, p: &'a MPat, q: &'a MPat) -> Result<(), AllocError>
    ensures { OnOk result (PutsVariables (variables_in p.now ++ variables_in q.now)
        (forms_in p.now + forms_in q.now + 1) stack.old.items stack.new.items) }
{
    stack.push(q)?;
    stack.push(p)?;
    Ok(())
}

/// The variables that occur in a conclusion and then in its hypotheses, each once, in the order of
/// first occurrence. Their numbers fit in 64 bits.
pub(crate) fn variables_of_claim(
    alloc: Global,
    hypotheses: &[MPat],
    conclusion: &MPat,
) -> Result<Vec<Variable>, AllocError>
    ensures variables { IfOk result
        (λ all. plain_variables all.items ≡ claim_variables hypotheses.now conclusion.now) }
    ensures numbered { IfOk result
        (λ all. AreNumbered (claim_variables hypotheses.now conclusion.now)) }
{
    let mut list = VariableList::new(alloc);
    list.add_all(alloc, conclusion)?;
    for hypothesis in hypotheses {
        list.add_all(alloc, hypothesis)?;
    }
    Ok(list.into_variables())
}
