// The active `$d`.

ghost use Rattle.std.specs.Prelude.{◌≡◌, ℕ, ◌<◌, ◌||◌, ◌&&◌, false, true, nat_eq, IfOk, filter};
ghost use Rattle.std.specs.Prelude.{option_map};
ghost use Rattle.std.specs.Prelude.{slice_get, if◌then◌else◌, ◌++◌, ◌∷◌, [], vec_len};
ghost use Rattle.std.specs.List.Sorted.{IsStrictlyIncreasing};
ghost use Rattle.std.specs.List.{list_any, list_all};
ghost use Rattle.mm_frame.specs.PlainFrames.{has_number, in_group, in_groups, items_of, groups_of};
ghost use Rattle.mm_frame.specs.Grouping.{Extends, is_apart_or_same, is_pair_of};
ghost use Rattle.mm_frame.specs.Listed.{list_of, group_places, AreListed, ends_with, with_place};
ghost use Rattle.mm_frame.specs.Listed.{without_place};
ghost use Rattle.mm_frame.specs.Places.{passes};

use crate::numbers::{kept_numbers, push_if};
use std::alloc::{AllocError, Global};
use std::collections::BTreeMap;

/// No pair is noted of a group that has more variables than this.
const SMALL: usize = 16;

/// The pairs of a variable are noted once it is in more groups than this.
const FEW: usize = 16;

/// Groups of variables that are kept apart from each other, one for each `$d`, in order. For each
/// variable there is an ascending list of the places of the groups that it is in.
///
/// A group adds nothing if each of its pairs is in a group already. For a group of few variables,
/// this is tested pair by pair. For a larger one, only the last group of its first variable is
/// tested.
///
/// Appending a group takes time in its length. Truncating takes time in the lengths of the groups
/// that are removed. To find whether two variables are kept apart takes one look-up if their pair
/// is noted. Otherwise it takes a search in the longer of their two lists for each place of the
/// shorter one. These places are few, or their groups are large. Notes are not trusted: one counts
/// only if its place is still in both lists.
#[derive(Drop)]
pub struct Disjoint {
    groups: Vec<Vec<u32>>,
    places: Vec<Vec<usize>>,
    noted: BTreeMap<(u32, u32), usize>,
    ghost listed: { AreListed (groups_of groups.items) places.items },
}

impl Disjoint {
    ghost use Rattle.std.specs.Prelude.{◌-◌, length, take};
    ghost use Rattle.mm_frame.specs.DisjointView.{groups_in};

    /// No groups. Takes no memory yet.
    pub fn new(alloc: Global) -> Self
        ensures { groups_in result ≡ [] }
    {
        Disjoint {
            groups: Vec::new(alloc),
            places: Vec::new(alloc),
            noted: BTreeMap::new(alloc),
        }
    }

    /// The groups, in order.
    pub fn groups(&self) -> &[Vec<u32>]
        ensures { groups_of result.now ≡ groups_in self.now }
    {
        &self.groups
    }

    /// How many groups there are.
    pub fn len(&self) -> usize
        ensures { result ≡ length (groups_in self.now) }
    {
        self.groups.len()
    }

    /// Keeps the variables of a group apart from each other. When out of memory, all groups may be
    /// lost.
    pub fn push(&mut self, alloc: Global, group: Vec<u32>) -> Result<(), AllocError>
        ensures { IfOk result (λ _. Extends (groups_in self.old) group.items (groups_in self.new)) }
    {
        if self.has_pairs_of(&group) {
            return Ok(());
        }
        self.append(alloc, group)
    }

    /// Appends a group. When out of memory, all groups may be lost.
    fn append(&mut self, alloc: Global, group: Vec<u32>) -> Result<(), AllocError>
        ensures { IfOk result (λ _. groups_in self.new ≡ groups_in self.old ++ group.items ∷ []) }
    {
        let place = self.groups.len();
        note_pairs(&mut self.noted, &self.places, &group, place)?;
        let is_listed = list_all(&mut self.places, alloc, &group, place).is_ok();
        if is_listed && self.groups.push(group).is_ok() {
            return Ok(());
        }
        self.groups.clear();
        self.places.clear();
        Err(AllocError)
    }

    /// Keeps the first `count` groups.
    pub fn truncate(&mut self, count: usize)
        ensures { groups_in self.new ≡ take count (groups_in self.old) }
    {
        while self.groups.len() > count {
            self.pop();
        }
    }

    /// Removes the last group.
    fn pop(&mut self)
        ensures { groups_in self.new ≡ take (length (groups_in self.old) - 1) (groups_in self.old) }
    {
        if let Some(group) = self.groups.pop() {
            unlist_all(&mut self.places, &group, self.groups.len());
        }
    }

    /// The group at a place.
    pub fn group(&self, place: usize) -> Option<&Vec<u32>>
        ensures { option_map (λ g. items_of g.now) result ≡ slice_get (groups_in self.now) place }
    {
        self.groups.get(place)
    }

    /// The places of the groups that a variable is in, ascending.
    fn listed(&self, n: u32) -> &[usize]
        ensures places { result.now ≡ group_places (groups_in self.now) n }
        ensures ascending { IsStrictlyIncreasing result.now }
    {
        match list_at(&self.places, n as usize) {
            None => &[],
            Some(list) => list,
        }
    }

    /// Whether each pair of the group is known to be in a group already.
    fn has_pairs_of(&self, group: &[u32]) -> bool
        ensures { result ≡ true → (a b : ℕ) → in_group a b group.now ≡ true
            → in_groups (groups_in self.now) a b
            ≡ true }
    {
        if group.len() <= SMALL {
            return self.are_all_apart(group);
        }
        match self.listed(group[0]).last() {
            None => false,
            Some(place) => self.are_listed(group, *place),
        }
    }

    /// Whether a group is found that has all these variables. No group is looked for if the first
    /// variable is in more groups than there are variables.
    pub fn are_together(&self, variables: &[u32]) -> bool
        ensures { result ≡ true → (a b : ℕ) → in_group a b variables.now ≡ true
            → in_groups (groups_in self.now) a b
            ≡ true }
    {
        if variables.is_empty() {
            return false;
        }
        let places = self.listed(variables[0]);
        if places.len() > variables.len() {
            return false;
        }
        for place in places {
            if self.are_listed(variables, *place) {
                return true;
            }
        }
        false
    }

    /// Whether each two different variables of the group are in a group together.
    fn are_all_apart(&self, group: &[u32]) -> bool
        ensures { result
            ≡ list_all (λ a. list_all (is_apart_or_same (groups_in self.now) a) group.now)
            group.now }
    {
        for a in group {
            if !self.is_apart_from(*a, group) {
                return false;
            }
        }
        true
    }

    /// Whether a variable is in a group with each of the others that differs from it.
    fn is_apart_from(&self, a: u32, others: &[u32]) -> bool
        ensures { result ≡ list_all (is_apart_or_same (groups_in self.now) a) others.now }
    {
        for b in others {
            if a != *b && !self.are_apart(a, *b) {
                return false;
            }
        }
        true
    }

    /// Whether the group at a place has all the variables.
    fn are_listed(&self, variables: &[u32], place: usize) -> bool
        ensures { result
            ≡ list_all (λ n. has_number (group_places (groups_in self.now) n) place) variables.now }
    {
        for n in variables {
            if !self.is_listed(*n, place) {
                return false;
            }
        }
        true
    }

    /// Whether a variable is in no group.
    pub fn is_free(&self, n: u32) -> bool
        ensures { result ≡ nat_eq (length (group_places (groups_in self.now) n)) 0 }
    {
        self.listed(n).is_empty()
    }

    /// Whether two variables differ and are in a group together.
    pub fn are_apart(&self, a: u32, b: u32) -> bool
        ensures { result ≡ in_groups (groups_in self.now) a b }
    {
        self.is_noted(a, b) || self.have_group(a, b)
    }

    /// Whether a group that has the two variables is noted.
    fn is_noted(&self, a: u32, b: u32) -> bool
        ensures { result ≡ true → in_groups (groups_in self.now) a b ≡ true }
    {
        let pair = if a < b { (a, b) } else { (b, a) };
        match self.noted.get(&pair) {
            None => false,
            Some(place) => self.has_both(a, b, *place),
        }
    }

    /// Whether the group at a place has both variables, and these differ.
    fn has_both(&self, a: u32, b: u32, place: usize) -> bool
        ensures { result ≡ true → in_groups (groups_in self.now) a b ≡ true }
    {
        if a == b {
            return false;
        }
        self.is_listed(a, place) && self.is_listed(b, place)
    }

    /// Whether two variables differ and are in a group together, by their lists.
    fn have_group(&self, a: u32, b: u32) -> bool
        ensures { result ≡ in_groups (groups_in self.now) a b }
    {
        let first = self.listed(a);
        let second = self.listed(b);
        a != b
            && if first.len() <= second.len() {
                have_common(first, second)
            } else {
                have_common(second, first)
            }
    }

    /// Groups that have exactly those pairs of the numbers that are in a group here. The numbers
    /// ascend. The result is what each group has of the numbers, or the pairs themselves if there
    /// are fewer pairs than places in the numbers' lists.
    pub fn within(&self, alloc: Global, numbers: &[u32]) -> Result<Vec<Vec<u32>>, AllocError>
        requires { IsStrictlyIncreasing numbers.now }
        ensures { IfOk result (λ v. (a b : ℕ) → in_groups (groups_of v.items) a b
            ≡ (in_groups (groups_in self.now) a b
            && (has_number numbers.now a && has_number numbers.now b))) }
    {
        if numbers.len().saturating_mul(numbers.len()) < self.count_places(numbers) {
            self.pairs_within(alloc, numbers)
        } else {
            self.groups_within(alloc, numbers)
        }
    }

    /// How many places the lists of these numbers have.
    fn count_places(&self, numbers: &[u32]) -> usize {
        let mut count: usize = 0;
        for n in numbers {
            count = count.saturating_add(self.listed(*n).len());
        }
        count
    }

    /// The pairs of these numbers that are in a group, each as a group of its own.
    fn pairs_within(&self, alloc: Global, numbers: &[u32]) -> Result<Vec<Vec<u32>>, AllocError>
        ensures { IfOk result (λ v. (a b : ℕ) → in_groups (groups_of v.items) a b
            ≡ (in_groups (groups_in self.now) a b
            && (has_number numbers.now a && has_number numbers.now b))) }
    {
        let mut groups = Vec::new(alloc);
        for i in 0..numbers.len() {
            self.push_pairs(alloc, &mut groups, numbers[i], &numbers[i + 1..])?;
        }
        Ok(groups)
    }

    /// Appends the pairs of a number with the others that are in a group.
    fn push_pairs(
        &self,
        alloc: Global,
        groups: &mut Vec<Vec<u32>>,
        n: u32,
        others: &[u32],
    ) -> Result<(), AllocError>
        ensures { IfOk result (λ _. (a b : ℕ) → in_groups (groups_of groups.new.items) a b
            ≡ (in_groups (groups_of groups.old.items) a b
            || list_any (is_pair_of (groups_in self.now) n a b) others.now)) }
    {
        for other in others {
            push_pair(alloc, groups, n, *other, self.are_apart(n, *other))?;
        }
        Ok(())
    }

    /// What each group has of these numbers, if it has two or more of them. The numbers ascend.
    ///
    /// The groups are found by the lists of the numbers. Each group then takes as many searches as
    /// there are numbers, or as it has variables if these are fewer.
    fn groups_within(&self, alloc: Global, numbers: &[u32]) -> Result<Vec<Vec<u32>>, AllocError>
        requires { IsStrictlyIncreasing numbers.now }
        ensures { IfOk result (λ v. (a b : ℕ) → in_groups (groups_of v.items) a b
            ≡ (in_groups (groups_in self.now) a b
            && (has_number numbers.now a && has_number numbers.now b))) }
    {
        let places = self.places_among(alloc, numbers)?;
        let mut groups = Vec::new(alloc);
        for place in &places {
            let group = self.common(alloc, *place, numbers)?;
            push_group(&mut groups, group)?;
        }
        Ok(groups)
    }

    /// The places of the groups that have one of these numbers, ascending and each once.
    pub fn places_among(&self, alloc: Global, numbers: &[u32]) -> Result<Vec<usize>, AllocError>
        ensures { IfOk result (λ v. (i : ℕ) → has_number v.items i
            ≡ list_any (λ n. has_number (group_places (groups_in self.now) n) i) numbers.now) }
    {
        let mut places = Vec::new(alloc);
        for n in numbers {
            places.extend_from_slice(self.listed(*n))?;
        }
        places.sort_unstable();
        places.dedup();
        Ok(places)
    }

    /// What the group at a place has of these numbers. The numbers ascend.
    fn common(&self, alloc: Global, place: usize, numbers: &[u32]) -> Result<Vec<u32>, AllocError>
        requires { IsStrictlyIncreasing numbers.now }
        ensures { IfOk result (λ v. (n : ℕ) → has_number v.items n
            ≡ (passes (λ group. has_number group n) (slice_get (groups_in self.now) place)
            && has_number numbers.now n)) }
    {
        match self.group(place) {
            None => Ok(Vec::new(alloc)),
            Some(group) => if group.len() <= numbers.len() {
                kept_numbers(alloc, numbers, group)
            } else {
                self.listed_numbers(alloc, place, numbers)
            },
        }
    }

    /// The numbers that are in the group at a place.
    fn listed_numbers(
        &self,
        alloc: Global,
        place: usize,
        numbers: &[u32],
    ) -> Result<Vec<u32>, AllocError>
        ensures { IfOk result (λ v. v.items
            ≡ filter (λ n. has_number (group_places (groups_in self.now) n) place) numbers.now) }
    {
        let mut kept = Vec::new(alloc);
        for n in numbers {
            push_if(self.is_listed(*n, place), &mut kept, *n)?;
        }
        Ok(kept)
    }

    /// Whether the group at a place has the number.
    fn is_listed(&self, n: u32, place: usize) -> bool
        ensures { result ≡ has_number (group_places (groups_in self.now) n) place }
    {
        has_place(self.listed(n), place)
    }
}

/// Notes the place for each pair of a small group that has a variable in many groups.
fn note_pairs(
    noted: &mut BTreeMap<(u32, u32), usize>,
    lists: &[Vec<usize>],
    group: &[u32],
    place: usize,
) -> Result<(), AllocError> {
    if group.len() > SMALL {
        return Ok(());
    }
    for a in group {
        for b in group {
            if a < b && (is_long(lists, *a) || is_long(lists, *b)) {
                noted.insert((*a, *b), place)?;
            }
        }
    }
    Ok(())
}

/// Whether a variable is in many groups.
fn is_long(lists: &[Vec<usize>], n: u32) -> bool {
    match list_at(lists, n as usize) {
        None => false,
        Some(list) => list.len() > FEW,
    }
}

/// Appends the place to the lists of the group's numbers.
fn list_all(
    lists: &mut Vec<Vec<usize>>,
    alloc: Global,
    group: &[u32],
    place: usize,
) -> Result<(), AllocError>
    ensures { IfOk result (λ _. (n : ℕ) → list_of lists.new.items n
        ≡ (if has_number group.now n then with_place place (list_of lists.old.items n)
        else list_of lists.old.items n)) }
{
    for n in group {
        list_one(lists, alloc, *n as usize, place)?;
    }
    Ok(())
}

/// Appends the place to one list, unless it is the last there.
fn list_one(
    lists: &mut Vec<Vec<usize>>,
    alloc: Global,
    at: usize,
    place: usize,
) -> Result<(), AllocError>
    ensures { IfOk result (λ _. (n : ℕ) → list_of lists.new.items n
        ≡ (if nat_eq at n then with_place place (list_of lists.old.items n)
        else list_of lists.old.items n)) }
{
    reach(lists, alloc, at)?;
    if stands_last(lists, at, place) {
        return Ok(());
    }
    lists[at].push(place)?;
    Ok(())
}

/// Appends empty lists until there is one with this number.
fn reach(lists: &mut Vec<Vec<usize>>, alloc: Global, at: usize) -> Result<(), AllocError>
    ensures same { (n : ℕ) → list_of lists.new.items n ≡ list_of lists.old.items n }
    ensures long { IfOk result (λ _. at < vec_len lists.new) }
{
    while lists.len() <= at {
        if lists.push(Vec::new(alloc)).is_err() {
            return Err(AllocError);
        }
    }
    Ok(())
}

/// Removes the place from the end of the lists of the group's numbers. No list has it twice at its
/// end.
fn unlist_all(lists: &mut Vec<Vec<usize>>, group: &[u32], place: usize)
    requires { (n : ℕ) → ends_with place (without_place place (list_of lists.old.items n)) ≡ false }
    ensures { (n : ℕ) → list_of lists.new.items n
        ≡ (if has_number group.now n then without_place place (list_of lists.old.items n)
        else list_of lists.old.items n) }
{
    for n in group {
        unlist_one(lists, *n as usize, place);
    }
}

/// Removes the place from one list, if it is the last there.
fn unlist_one(lists: &mut Vec<Vec<usize>>, at: usize, place: usize)
    ensures { (n : ℕ) → list_of lists.new.items n
        ≡ (if nat_eq at n then without_place place (list_of lists.old.items n)
        else list_of lists.old.items n) }
{
    if at >= lists.len() {
        return;
    }
    if stands_last(lists, at, place) {
        lists[at].pop();
    }
}

/// Whether the place is the last in the list with this number.
fn stands_last(lists: &[Vec<usize>], at: usize, place: usize) -> bool
    ensures { result ≡ ends_with place (list_of lists.now at) }
{
    match list_at(lists, at) {
        None => false,
        Some(list) => is_last(list, place),
    }
}

/// The list with this number.
fn list_at(lists: &[Vec<usize>], at: usize) -> Option<&Vec<usize>>
    ensures { option_map (λ l. l.now) result ≡ slice_get lists.now at }
{
    lists.get(at)
}

/// Whether the place is the last of these.
fn is_last(places: &[usize], place: usize) -> bool
    ensures { result ≡ ends_with place places.now }
{
    match places.last() {
        None => false,
        Some(last) => *last == place,
    }
}

/// Whether a place of one list is in the other one, which ascends.
fn have_common(fewer: &[usize], more: &[usize]) -> bool
    requires { IsStrictlyIncreasing more.now }
    ensures { result ≡ list_any (has_number more.now) fewer.now }
{
    for place in fewer {
        if has_place(more, *place) {
            return true;
        }
    }
    false
}

/// Whether the place is among others, which ascend.
fn has_place(places: &[usize], place: usize) -> bool
    requires { IsStrictlyIncreasing places.now }
    ensures { result ≡ has_number places.now place }
{
    places.binary_search(&place).is_ok()
}

/// Appends the group if it has a pair.
pub fn push_group(groups: &mut Vec<Vec<u32>>, group: Vec<u32>) -> Result<(), AllocError>
    ensures { IfOk result (λ _. (a b : ℕ) → in_groups (groups_of groups.new.items) a b
        ≡ (in_groups (groups_of groups.old.items) a b || in_group a b group.items)) }
{
    if group.len() < 2 {
        return Ok(());
    }
    if groups.push(group).is_err() {
        return Err(AllocError);
    }
    Ok(())
}

/// Appends two numbers as a group if they are to be kept.
fn push_pair(
    alloc: Global,
    groups: &mut Vec<Vec<u32>>,
    n: u32,
    other: u32,
    keeps: bool,
) -> Result<(), AllocError>
    ensures { IfOk result (λ _. (a b : ℕ) → in_groups (groups_of groups.new.items) a b
        ≡ (in_groups (groups_of groups.old.items) a b
        || (keeps && in_group a b (n ∷ (other ∷ []))))) }
{
    if !keeps {
        return Ok(());
    }
    let pair = Vec::from_slice(alloc, &[n, other])?;
    if groups.push(pair).is_err() {
        return Err(AllocError);
    }
    Ok(())
}
