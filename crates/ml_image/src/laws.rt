// Laws about images and names.
ghost use Rattle.ml_image.specs.ApartLaws.{InjectionsDiffer, InstancesDiffer};
ghost use Rattle.ml_image.specs.ConditionLaws.{ConstructorHasTotality, EquationHasImage};
ghost use Rattle.ml_image.specs.ConditionLaws.{RuleHasImage, SortedHasImage};
ghost use Rattle.ml_image.specs.NamingLaws.{GainedAreOwn, ImageStays, SentenceStays};

/// Has no effect at run time. It states that names gain tokens only at the end, and only tokens of
/// the definition itself. The image of a pattern or a sentence does not change then.
pub fn naming_laws()
    ensures gained { GainedAreOwn }
    ensures image { ImageStays }
    ensures sentence { SentenceStays }
{}

/// Has no effect at run time. It states which statements of a well-sorted theory have images: its
/// patterns, its rules, the equations of its functions, and that its constructors are total. The
/// only further conditions are bounds on the numbers of variables, and that guards repeat equations
/// of their function.
pub fn condition_laws()
    ensures pattern { SortedHasImage }
    ensures rule { RuleHasImage }
    ensures equation { EquationHasImage }
    ensures constructor { ConstructorHasTotality }
{}

/// Has no effect at run time. It states why the facts about unequal patterns and about injections
/// are true. Under each substitution by terms of the variables' sorts, two patterns that such a
/// fact names have different normal forms. Two injections have equal ones only if what they inject
/// is equal.
pub fn apart_laws()
    ensures unequal { InstancesDiffer }
    ensures injective { InjectionsDiffer }
{}
