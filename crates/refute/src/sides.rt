// Left sides some of whose parts have names.
ghost use Rattle.std.specs.Prelude.{◌≡◌, ℕ, IfOk, Some};
ghost use Rattle.term_core.specs.RulePatterns.{plain_pattern, sort_numbers};
ghost use Rattle.rule_core.specs.Sorting.{HasSort};
ghost use Rattle.ml_image.specs.Images.{image_of};
ghost use Rattle.prove_term.specs.Contexts.{HasGrown};
ghost use Rattle.refute.specs.Refuting.{IsSetting};

use crate::settings::{Setting, few_sorts};
use ml_image::{PartName, condition_laws};
use ml_pat::MPat;
use prove_term::Cx;
use std::alloc::{AllocError, Global};
use term_core::RulePat;

// A pattern, the names of its parts, and the image of the pattern without the names.
#[derive(Drop)]
pub(crate) struct Side<'a, 'n> {
    // The pattern.
    pub(crate) pat: &'a RulePat,
    // The names of its parts.
    pub(crate) names: &'a [PartName<'n>],
    // The image of the pattern.
    pub(crate) image: MPat,
}

// The image of a pattern.
pub(crate) fn pattern_image(
    alloc: Global,
    cx: &mut Cx<'_>,
    setting: &Setting<'_>,
    pat: &RulePat,
) -> Result<MPat, AllocError>
    requires setting { IsSetting cx.old setting.now }
    requires sorted { (sort : ℕ) × HasSort cx.old.program.sig
        (sort_numbers setting.now.sorts.now) (plain_pattern pat.now) sort }
    ensures image { IfOk result
        (λ p. image_of cx.new.program.sig cx.new.names (plain_pattern pat.now) ≡ Some p) }
    ensures grown { HasGrown cx.old cx.new }
{
    condition_laws();
    few_sorts(setting.sorts, setting.new.0);
    cx.image(alloc, pat)
}
