// The sorts and symbols that numbers of tokens stand for.
ghost use Rattle.std.specs.Prelude.{◌≡◌, ◌≢◌, ◌≤◌, ◌^◌, ◌++◌, ℕ, List, length, MatchOption, Some};
ghost use Rattle.std.specs.Prelude.{slice_get, IsTrue, ◌↔◌};
ghost use Rattle.ml_pat.specs.Patterns.{constant};
ghost use Rattle.ml_image.specs.Images.{sort_image, symbol_image};
ghost use Rattle.true_facts.specs.Only.{IsOnly};
ghost use Rattle.true_facts.specs.Tokens.{sort_found};

use ml_pat::{ConstNo, MSort, Names};
use rule_core::Signature;
use term_core::SortId;

// The rest of the token with this number, if the token begins with the prefix.
pub(crate) fn named<'n>(names: &'n Names, number: u64, prefix: &str) -> Option<&'n str>
    ensures { MatchOption result
        ((rest : List ℕ) → slice_get names.now number ≢ Some (prefix.now ++ rest))
        (λ rest. slice_get names.now number ≡ Some (prefix.now ++ rest.now)) }
{
    let Some(token) = names.token(number) else {
        return None;
    };
    token.strip_prefix(prefix)
}

/// The sort whose token has this number, or None exactly if there is none.
pub fn sort_of(sig: &Signature, names: &Names, number: MSort) -> Option<SortId>
    requires { length sig.now.sorts ≤ 2 ^ 32 }
    ensures { IsOnly (λ s. sort_image sig.now names.now s ≡ Some number.0) (sort_found result) }
{
    names.tokens_differ();
    sig.sorts.names_differ();
    let Some(name) = named(names, number.0, "s:") else {
        return None;
    };
    let Some(place) = sig.sorts.number(name) else {
        return None;
    };
    Some(SortId(place as u32))
}

// Whether the number is that of the sort's token.
pub(crate) fn is_sort(sig: &Signature, names: &Names, number: MSort, sort: SortId) -> bool
    requires { length sig.now.sorts ≤ 2 ^ 32 }
    ensures { IsTrue result ↔ (sort_image sig.now names.now sort.0 ≡ Some number.0) }
{
    match sort_of(sig, names, number) {
        Some(found) => found == sort,
        None => false,
    }
}

/// The symbol whose token has this number, or None exactly if there is none.
pub fn symbol_of(sig: &Signature, names: &Names, number: ConstNo) -> Option<usize>
    ensures { IsOnly (λ f. symbol_image sig.now names.now f ≡ Some (constant number.0)) result }
{
    names.tokens_differ();
    sig.symbols.names_differ();
    let Some(name) = named(names, number.0, "f:") else {
        return None;
    };
    sig.symbols.number(name)
}
