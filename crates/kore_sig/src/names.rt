// Sets of names.
ghost use Rattle.std.specs.Prelude.{◌≡◌, ◌++◌, ◌∷◌, [], ℕ, List, IfOk, OnOk, is_some, is_none};
ghost use Rattle.std.specs.Prelude.{if◌then◌else◌};
ghost use Rattle.rule_core.specs.Named.{number_of_name, is_among};
ghost use Rattle.rule_core.specs.DistinctNames.{names_of};
ghost use Rattle.kore_sig.specs.Sets.{Knows};

use kore_ast::Text;
use rule_core::Table;
use std::alloc::{AllocError, Global};

/// Whether the table has the name.
pub(crate) fn has_name<V: Drop>(names: &Table<V>, name: &Text) -> bool
    ensures number { result ≡ is_some (number_of_name names.now name.now) }
    ensures among { result ≡ is_among (names_of names.now) name.now }
{
    names.number(name.as_str()).is_some()
}

/// Adds a name, and returns whether it is new.
pub(crate) fn add_name(
    alloc: Global,
    names: &mut Table<()>,
    name: &Text,
) -> Result<bool, AllocError>
    ensures fresh { IfOk result (λ fresh. fresh ≡ is_none (number_of_name names.old name.now)) }
    ensures entries { IfOk result (λ fresh. names.new
        ≡ (if fresh then names.old ++ (name.now, tt) ∷ [] else names.old)) }
    ensures known { OnOk result ((known : List (List ℕ)) → Knows names.old known
        → Knows names.new (known ++ name.now ∷ [])) }
{
    names.insert(String::from_str(alloc, name.as_str())?, ())
}
