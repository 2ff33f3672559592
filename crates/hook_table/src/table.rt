// The table of hooks.
ghost use Rattle.std.specs.Prelude.{◌≡◌, map, option_map, position};
ghost use Rattle.std.specs.Str.{bytes_eq};
ghost use Rattle.hook_table.specs.declared.table.HookRow.{HookRow};
ghost use Rattle.term_core.specs.HookValues.{hooks};
ghost use Rattle.term_core.specs.HookSignatures.{signature};
ghost use Rattle.hook_table.specs.Names.{hook_number, NamesDiffer};
ghost use Rattle.hook_table.specs.Rows.{plain_row};

use crate::rows::table_rows;
use term_core::HookNo;

/// The kind of a scalar.
#[derive(Clone, Copy, PartialEq, Eq, Debug)]
pub enum ScalarKind {
    /// A whole number.
    Int,
    /// A truth value.
    Bool,
}

/// A row of the table.
#[derive(Clone, Copy)]
pub struct HookRow {
    /// The name of the hook, as a definition writes it.
    pub name: &'static str,
    /// The kinds of its arguments.
    pub args: &'static [ScalarKind],
    /// The kind of its value.
    pub result: ScalarKind,
}

macro_rules! row_table {
    (() $($number:literal => $name:literal [$($arg:ident),*] -> $result:ident = $compute:path;)*) => {
        [$(HookRow { name: $name, args: &[$(ScalarKind::$arg),*], result: ScalarKind::$result }),*]
    };
}

// The hooks, in order. Other crates read them by `hook_rows`.
const HOOKS: [HookRow; 31] = table_rows!(row_table!());

/// The hooks: the rows of the definition, in its order. The number of a hook is its index here. No
/// two have the same name.
pub fn hook_rows() -> &'static [HookRow]
    ensures rows { map plain_row result.now ≡ map signature hooks }
    ensures names { NamesDiffer }
{
    &HOOKS
}

/// The number of the hook with this name. `None` exactly when no row has the name. It takes no
/// memory.
pub fn find(name: &[u8]) -> Option<HookNo>
    ensures { option_map (λ h. h.0) result ≡ hook_number name.now }
{
    let place = named_place(hook_rows(), name)?;
    Some(HookNo(place as u8))
}

// The index of the first row with this name.
fn named_place(rows: &[HookRow], name: &[u8]) -> Option<usize>
    ensures { result ≡ position (λ (row : HookRow). bytes_eq row.name.now name.now) rows.now }
{
    rows.iter().position(|row| row.name.as_bytes() == name)
}
