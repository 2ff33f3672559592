// The variables of a rule or of an equation, numbered by name and sort.
ghost use Rattle.std.specs.Prelude.{◌≡◌, ◌-◌, ◌++◌, ◌∷◌, [], length, take, IfOk, OnOk, OnErr, Some};
ghost use Rattle.std.specs.Prelude.{None, ◌≤◌, ◌^◌, IfSome, IfNone};
ghost use Rattle.kore_check.specs.PatternMeanings.{variable_number, with_variable};
ghost use Rattle.kore_check.specs.VariableNames.{named_sorts};
ghost use Rattle.kore_check.specs.VariableKeys.{key_cmp, key_cmp_total, key_cmp-below, key_of};

use rule_core::VarInfo;
use std::alloc::{AllocError, Global};
use std::cmp::Ordering;
use std::collections::BTreeMap;
use std::collections::btree_map::Comparable;
use std::marker::Model;
use term_core::SortId;

/// Variables in the order of their first occurrence, numbered from 0. No two have the same name and
/// the same sort. Contracts see them as the list of their names, each with the number of its sort.
#[derive(Drop)]
pub struct Variables {
    infos: Vec<VarInfo>,
    numbers: BTreeMap<(String, u32), u32>,
}

impl Model for Variables {
    ghost use Rattle.std.specs.Prelude.{ℕ, List};

    ghost Value = { List (List ℕ × ℕ) };

    ghost use Rattle.kore_check.specs.VariableFields.{variables_of, IsIndexed};

    ghost view = { variables_of };

    ghost invariant = { IsIndexed };
}

// A name and a sort to look up.
#[derive(Clone, Copy)]
struct Wanted<'a> {
    name: &'a str,
    sort: u32,
}

impl Comparable<(String, u32)> for Wanted<'_> {
    ghost compare = { λ q k. key_cmp (q.name.now, q.sort) (key_of k) };

    ghost respects_cmp = { λ q x y. key_cmp_total.congr (q.name.now, q.sort) (key_of x) (key_of y) };

    ghost below_greater = { λ q x y. key_cmp-below (q.name.now, q.sort) (key_of x) (key_of y) };

    fn compare(&self, key: &(String, u32)) -> Ordering {
        self.name.cmp(key.0.as_str()).then(self.sort.cmp(&key.1))
    }
}

impl Variables {
    /// No variables. It allocates nothing.
    pub fn new(alloc: Global) -> Self
        ensures { result ≡ [] }
    {
        Variables {
            infos: Vec::new(alloc),
            numbers: BTreeMap::new(alloc),
        }
    }

    /// How many variables there are.
    pub fn len(&self) -> usize
        ensures { result ≡ length self.now }
    {
        self.infos.len()
    }

    /// The variables in the order of their numbers.
    pub fn infos(&self) -> &[VarInfo]
        ensures { named_sorts result.now ≡ self.now }
    {
        &self.infos
    }

    /// The variables in the order of their numbers.
    pub fn into_infos(self) -> Vec<VarInfo>
        ensures { named_sorts result.items ≡ self }
    {
        self.infos
    }

    /// The number of the variable with this name and this sort, or None if there is none. It
    /// compares the name with a number of others that is logarithmic in the number of variables.
    pub fn number(&self, name: &str, sort: SortId) -> Option<u32>
        ensures { result ≡ variable_number self.now name.now sort.0 }
    {
        let wanted = Wanted { name, sort: sort.0 };
        self.numbers.get(wanted).copied()
    }

    /// Returns the number of the variable with this name and this sort. A new variable is added at
    /// the end. It costs as much as `number`, and two copies of the name of a new variable.
    ///
    /// The error is `AllocError`: out of memory, or the number does not fit in 32 bits. After it
    /// the variables are as before.
    pub fn number_or_add(
        &mut self,
        alloc: Global,
        name: &str,
        sort: SortId,
    ) -> Result<u32, AllocError>
        ensures vars { OnOk result (self.new ≡ with_variable self.old name.now (Some sort.0)) }
        ensures number { IfOk result (λ x. variable_number self.new name.now sort.0 ≡ Some x) }
        ensures err { OnErr result (self.new ≡ self.old) }
    {
        if let Some(number) = self.number(name, sort) {
            return Ok(number);
        }
        self.add(alloc, name, sort)
    }

    // Adds a variable that is not there, and returns its number.
    fn add(&mut self, alloc: Global, name: &str, sort: SortId) -> Result<u32, AllocError>
        requires { variable_number self.old name.now sort.0 ≡ None }
        ensures vars { OnOk result (self.new ≡ self.old ++ (name.now, sort.0) ∷ []) }
        ensures number { IfOk result (λ x. variable_number self.new name.now sort.0 ≡ Some x) }
        ensures err { OnErr result (self.new ≡ self.old) }
    {
        let number = as_number(self.infos.len()).ok_or(AllocError)?;
        let info = VarInfo {
            name: String::from_str(alloc, name)?,
            sort,
        };
        let key = (String::from_str(alloc, name)?, sort.0);
        self.infos.reserve(1)?;
        self.numbers.insert(key, number)?;
        self.infos.push(info).unwrap();
        Ok(number)
    }

    // Removes the last variable.
    fn remove_last(&mut self)
        ensures { self.new ≡ take (length self.old - 1) self.old }
    {
        let Some(info) = self.infos.pop() else {
            return;
        };
        let wanted = Wanted {
            name: info.name.as_str(),
            sort: info.sort.0,
        };
        self.numbers.remove(wanted);
    }

    /// Keeps the first `len` variables, or all of them if there are no more. It looks up each one
    /// that it removes.
    pub fn truncate(&mut self, len: usize)
        ensures { self.new ≡ take len self.old }
    {
        while self.infos.len() > len {
            self.remove_last();
        }
    }
}

/// The number in 32 bits. `None` exactly if it does not fit.
pub fn as_number(number: usize) -> Option<u32>
    ensures fits { IfSome result (λ n. n ≡ number) }
    ensures too_great { IfNone result (2 ^ 32 ≤ number) }
{
    u32::try_from(number).ok()
}
