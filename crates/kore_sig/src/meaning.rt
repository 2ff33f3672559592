// The signature of a definition, or the first fault of its declarations.
ghost use Rattle.std.specs.Prelude.{◌≡◌, [], ℕ, None, map, IfOk, IfErr, OnOk};
ghost use Rattle.kore_ast.specs.Plain.{plain_definition, plain_module};
ghost use Rattle.rule_core.specs.DistinctNames.{names_of};
ghost use Rattle.rule_core.specs.WellSorted.{IsSignature};
ghost use Rattle.kore_sig.specs.Naming.{first_module};
ghost use Rattle.kore_sig.specs.Placing.{names_of_modules};
ghost use Rattle.kore_sig.specs.Refusals.{IsRefusal, Refuses};
ghost use Rattle.kore_sig.specs.SignatureFaults.{FirstOfSignature};
ghost use Rattle.kore_sig.specs.Signatures.{IsSignatureOf};
ghost use Rattle.kore_sig.specs.Numbered.{IsNumbered};

use crate::counted::placed_declarations;
use crate::declared_facts::learn;
use crate::faults::SigFault;
use crate::names::add_name;
use crate::pairs::stated_order;
use crate::symbols::declared_symbols;
use kore_ast::{Definition, Module};
use rule_core::{Signature, Table, TextHasher};
use std::alloc::Global;

/// The greatest number of sorts, and of symbols: their numbers and the count fit in 32 bits.
const MOST_NAMES: usize = 0xFFFF_FFFF;

/// Returns the signature that a definition declares. `hasher` hashes its names. A function has the
/// kind `Closed` if it has sort parameters, and `Equations` otherwise, whatever its hook.
///
/// The error is the first fault of the declarations. The names of all modules come first, then the
/// declarations of the modules that count, then the pairs of sorts that their axioms state. Each of
/// these is in the order of the file. At one declaration the smallest number of a refusal comes
/// first, and for the same number the first byte. The error is `SigFault::Memory` if memory runs
/// out, or if there are 2^32 or more sorts, symbols, or parameters of one symbol.
///
/// It looks at each declaration a few times, with a look-up in a hash table for each name. See
/// `Subsorts` for the cost of the pairs. It does not recurse.
pub fn signature(
    alloc: Global,
    hasher: TextHasher,
    definition: &Definition,
) -> Result<Signature, SigFault>
    ensures declared { IfOk result (IsSignatureOf (plain_definition definition.now)) }
    ensures faultless { OnOk result (FirstOfSignature (plain_definition definition.now) None) }
    ensures sorted { IfOk result IsSignature }
    ensures numbered { IfOk result IsNumbered }
    ensures refused { IfErr result (IsRefusal (plain_definition definition.now)) }
{
    let modules = module_names(alloc, hasher, &definition.modules)?;
    let decls = placed_declarations(alloc, hasher, definition)?;
    let known = learn(alloc, hasher, &decls)?;
    if known.sorts.len() > MOST_NAMES {
        return Err(SigFault::Memory);
    }
    let symbols = declared_symbols(alloc, hasher, &modules, &known, &decls)?;
    if symbols.len() > MOST_NAMES {
        return Err(SigFault::Memory);
    }
    let subsorts = stated_order(alloc, &known.sorts, &decls)?;
    symbols.names_differ();
    Ok(Signature {
        sorts: known.sorts,
        symbols,
        subsorts,
    })
}

/// The names of the modules, in the order of the file. The error is the first name that occurs
/// twice.
fn module_names(
    alloc: Global,
    hasher: TextHasher,
    modules: &[Module],
) -> Result<Table<()>, SigFault>
    ensures refused { IfErr result
        (Refuses (λ r. first_module [] (map plain_module modules.now) ≡ r)) }
    ensures clear { OnOk result (first_module [] (map plain_module modules.now) ≡ None) }
    ensures names { IfOk result (λ names. names_of names ≡ names_of_modules modules.now) }
{
    let mut names = Table::hashed_by(alloc, hasher);
    for module in modules {
        if !add_name(alloc, &mut names, &module.name)? {
            return Err(SigFault::Duplicate(module.at));
        }
    }
    Ok(names)
}
