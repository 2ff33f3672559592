// The names of parts of a pattern, seen from the pattern.
ghost use Rattle.std.specs.Prelude.{◌≡◌, IfOk, option_map};
ghost use Rattle.rule_core.specs.ProgramView.{names_of};
ghost use Rattle.ml_image.specs.NamedSides.{of_child, way_in};
ghost use Rattle.ml_image.specs.PartNames.{part_names};

use rule_core::Named;
use std::alloc::{AllocError, Global};

/// A name of a part of a pattern or of a list of patterns. Contracts see it as the plain
/// `part_name`.
#[derive(Clone, Copy)]
pub struct PartName<'n> {
    /// The variable.
    pub var: u32,
    /// The way of child numbers to the part.
    pub way: &'n [u32],
    /// Whether the variable is written before the part.
    pub first: bool,
}

/// The names of parts of a list of patterns, in order. An error: out of memory.
pub fn part_names<'n>(alloc: Global, named: &'n [Named]) -> Result<Vec<PartName<'n>>, AllocError>
    ensures { IfOk result (λ v. part_names v.items ≡ names_of named.now) }
{
    let mut names = Vec::with_capacity(alloc, named.len())?;
    for name in named {
        names.push(PartName {
            var: name.var,
            way: &name.at,
            first: name.first,
        })?;
    }
    Ok(names)
}

/// The names of parts of the child with this number, in order, each seen from the child. An error:
/// out of memory.
pub fn names_in<'n>(
    alloc: Global,
    names: &[PartName<'n>],
    child: usize,
) -> Result<Vec<PartName<'n>>, AllocError>
    ensures { IfOk result (λ v. part_names v.items ≡ of_child child (part_names names.now)) }
{
    let mut inside = Vec::new(alloc);
    for name in names {
        if let Some(way) = way_in(name.way, child) {
            inside.push(PartName { way, ..*name })?;
        }
    }
    Ok(inside)
}

// The rest of a way that begins with the child of this number.
fn way_in(way: &[u32], child: usize) -> Option<&[u32]>
    ensures { option_map (λ w. w.now) result ≡ way_in child way.now }
{
    match way {
        [first, rest @ ..] => if *first as usize == child {
            Some(rest)
        } else {
            None
        },
        [] => None,
    }
}
