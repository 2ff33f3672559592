// Whether texts keep apart the variables that `$d` asks for.
ghost use Rattle.std.specs.Prelude.{◌≡◌, ℕ, List, suc, Some, length, drop, All, true};
ghost use Rattle.std.specs.Prelude.{IfOk, slice_get, slice_index_or, if◌then◌else◌, slice_set};
ghost use Rattle.std.specs.Prelude.{◌++◌, ◌∷◌, [], ◌<◌};
ghost use Rattle.std.specs.List.{list_all};
ghost use Rattle.mm_database.specs.Proofs.{texts_apart};
ghost use Rattle.mm_frame.specs.NumberedSteps.{NumberedPlace, numbers_apart};
ghost use Rattle.mm_verify.specs.Filling.{GroupWithin, AreWithin, IsWithin, text_at};
ghost use Rattle.mm_verify.specs.Filling.{are_groups_apart as groups_apart};
ghost use Rattle.mm_verify.specs.Filling.{is_group_apart as group_apart};
ghost use Rattle.mm_verify.specs.Filling.{are_parts_apart as parts_apart};
ghost use Rattle.mm_verify.specs.Pairs.{HasVariables, AreKnown, AreNoted, Keeps, IsTested};
ghost use Rattle.mm_verify.specs.Pairs.{are_variables_apart as variables_apart};
ghost use Rattle.mm_verify.specs.Pairs.{is_variable_apart as variable_apart};

use crate::filling::text_at;
use crate::lists::Lists;
use crate::notes::{LONGEST, Notes};
use crate::parts::Part;
use crate::place::Place;
use crate::present::Present;
use crate::stack::Stack;
use crate::together::is_group_apart;
use std::alloc::{AllocError, Global};
use std::collections::BTreeMap;

/// If two texts have at least this many pairs of variables, it is noted that they are kept apart.
const MANY: usize = 64;

/// The variables in the texts of entries. Each text is looked at once. The number at the place of
/// an entry is 0 if its text was not looked at yet, and else one more than the number of its list.
/// If two texts with many variables were found to be kept apart, the pair of their places is noted,
/// and the pair of the lists of their variables, which holds for the whole proof. The parts of a
/// long statement whose texts are not empty are kept next to these.
#[derive(Drop)]
pub(crate) struct Spreads {
    numbers: Vec<usize>,
    lists: Lists,
    gathered: Vec<u32>,
    tested: BTreeMap<usize, (usize, usize)>,
    notes: Notes,
    pub(crate) present: Present,
}

impl Spreads {
    /// Nothing is known yet. There is room for what most steps need.
    pub(crate) fn new(alloc: Global) -> Result<Spreads, AllocError> {
        Ok(Spreads {
            numbers: Vec::with_capacity(alloc, 64)?,
            lists: Lists::new(alloc)?,
            gathered: Vec::with_capacity(alloc, 64)?,
            tested: BTreeMap::new(alloc),
            notes: Notes::new(alloc)?,
            present: Present::new(alloc),
        })
    }

    /// Forgets what was noted of lists, for the next proof.
    pub(crate) fn begin_proof(&mut self)
        ensures { (p : NumberedPlace) → AreNoted p self.new.notes }
    {
        self.notes.clear();
    }

    /// Forgets the entries, and prepares for those of `count` places.
    fn clear(&mut self, count: usize) -> Result<(), AllocError>
        ensures { IfOk result
            (λ _. (p : NumberedPlace) (entries : List (List ℕ)) → length entries ≡ count
            → AreNoted p self.old.notes → AreKnown p entries self.new) }
    {
        self.lists.truncate(0);
        self.tested.clear();
        self.numbers.clear();
        self.numbers.resize(count, 0)?;
        Ok(())
    }

    /// The number of the list of the variables in the text of the entry at a place.
    pub(crate) fn find<P: Place>(
        &mut self,
        place: &P,
        stack: &Stack<'_>,
        base: usize,
        i: usize,
    ) -> Result<usize, AllocError>
        requires within { i < length (drop base stack.now) }
        requires known { AreKnown (P.place place.now) (drop base stack.now) self.old }
        ensures known { IfOk result
            (λ _. AreKnown (P.place place.now) (drop base stack.now) self.new) }
        ensures keeps { IfOk result (λ _. Keeps self.old self.new) }
        ensures found { IfOk result (λ k. slice_get self.new.numbers.items i ≡ Some (suc k)) }
    {
        let number = self.numbers[i];
        if number > 0 {
            return Ok(number - 1);
        }
        gather(place, text_at(stack, base, i), &mut self.gathered)?;
        let number = self.add(i)?;
        Ok(number)
    }

    /// Adds the gathered variables as the list of a place.
    fn add(&mut self, i: usize) -> Result<usize, AllocError>
        requires within { i < length self.old.numbers.items }
        ensures numbers { IfOk result
            (λ k. self.new.numbers.items ≡ slice_set self.old.numbers.items i (suc k)) }
        ensures lists { IfOk result
            (λ k. self.new.lists ≡ self.old.lists ++ self.old.gathered.items ∷ []) }
        ensures last { IfOk result (λ k. k ≡ length self.old.lists) }
        ensures tested { self.new.tested ≡ self.old.tested }
        ensures notes { self.new.notes ≡ self.old.notes }
    {
        let number = self.lists.len();
        self.lists.push(&self.gathered)?;
        self.numbers[i] = self.lists.len();
        Ok(number)
    }

    /// The list with this number.
    pub(crate) fn list(&self, number: usize) -> &[u32]
        requires { number < length self.now.lists }
        ensures { result.now ≡ slice_index_or self.now.lists number [] }
    {
        self.lists.entry(number)
    }

    /// Whether two lists have many pairs.
    fn are_long(&self, x: usize, y: usize) -> bool
        requires one { x < length self.now.lists }
        requires other { y < length self.now.lists }
    {
        self.list(x).len().saturating_mul(self.list(y).len()) >= MANY
    }

    /// Whether it is noted that the texts of two places are kept apart.
    fn is_tested(&self, i: usize, j: usize) -> bool
        ensures { (p : NumberedPlace) (entries : List (List ℕ)) → AreKnown p entries self.now
            → result ≡ true
            → texts_apart (numbers_apart p) (text_at entries i) (text_at entries j) ≡ true }
    {
        match self.tested.get(&pair_key(i, j)) {
            None => false,
            Some(pair) => pair.0 == i && pair.1 == j,
        }
    }

    /// Notes that the texts of two places are kept apart.
    fn note(&mut self, i: usize, j: usize) -> Result<(), AllocError>
        ensures { IfOk result
            (λ _. (p : NumberedPlace) (entries : List (List ℕ)) → AreKnown p entries self.old
            → texts_apart (numbers_apart p) (text_at entries i) (text_at entries j) ≡ true
            → AreKnown p entries self.new) }
    {
        self.tested.insert(pair_key(i, j), (i, j))?;
        Ok(())
    }
}

/// The key of a pair of places. Keys of different pairs differ if there are fewer than 2^32 places.
fn pair_key(i: usize, j: usize) -> usize {
    i.wrapping_mul(1 << 32).wrapping_add(j)
}

/// Whether in each group the texts of different variables have no variable in common, and each pair
/// of their variables is kept apart at the place. The variables of each text are found once.
pub(crate) fn are_groups_apart<P: Place>(
    alloc: Global,
    place: &P,
    groups: &[Vec<Part>],
    stack: &Stack<'_>,
    base: usize,
    spreads: &mut Spreads,
) -> Result<bool, AllocError>
    requires within { All (GroupWithin (length (drop base stack.now))) groups.now }
    requires noted { AreNoted (P.place place.now) spreads.old.notes }
    ensures noted { IfOk result (λ _. AreNoted (P.place place.now) spreads.new.notes) }
    ensures apart { IfOk result
        (λ r. r ≡ groups_apart (P.place place.now) (drop base stack.now) groups.now) }
{
    if groups.is_empty() {
        return Ok(true);
    }
    spreads.clear(stack.len().saturating_sub(base))?;
    for group in groups {
        if !is_group_apart(alloc, place, group, stack, base, spreads)? {
            return Ok(false);
        }
    }
    Ok(true)
}

/// The same for one group. It takes time in the length of the texts whose variables are not known
/// yet, times its logarithm, and a test for each two variables of different texts.
pub(crate) fn are_pairs_apart<P: Place>(
    place: &P,
    group: &[Part],
    stack: &Stack<'_>,
    base: usize,
    spreads: &mut Spreads,
) -> Result<bool, AllocError>
    requires within { AreWithin (length (drop base stack.now)) group.now }
    requires known { AreKnown (P.place place.now) (drop base stack.now) spreads.old }
    ensures known { IfOk result
        (λ _. AreKnown (P.place place.now) (drop base stack.now) spreads.new) }
    ensures apart { IfOk result
        (λ r. r ≡ group_apart (P.place place.now) (drop base stack.now) group.now) }
{
    for i in 0..group.len() {
        if !is_part_apart(place, &group[i], &group[i + 1..], stack, base, spreads)? {
            return Ok(false);
        }
    }
    Ok(true)
}

/// Whether one part is kept apart from each of the others.
fn is_part_apart<P: Place>(
    place: &P,
    one: &Part,
    others: &[Part],
    stack: &Stack<'_>,
    base: usize,
    spreads: &mut Spreads,
) -> Result<bool, AllocError>
    requires one { IsWithin (length (drop base stack.now)) one.now }
    requires others { AreWithin (length (drop base stack.now)) others.now }
    requires known { AreKnown (P.place place.now) (drop base stack.now) spreads.old }
    ensures known { IfOk result
        (λ _. AreKnown (P.place place.now) (drop base stack.now) spreads.new) }
    ensures apart { IfOk result (λ r. r
        ≡ list_all (parts_apart (P.place place.now) (drop base stack.now) one.now) others.now) }
{
    for other in others {
        if !are_parts_apart(place, one, other, stack, base, spreads)? {
            return Ok(false);
        }
    }
    Ok(true)
}

/// Whether two parts are kept apart.
fn are_parts_apart<P: Place>(
    place: &P,
    one: &Part,
    other: &Part,
    stack: &Stack<'_>,
    base: usize,
    spreads: &mut Spreads,
) -> Result<bool, AllocError>
    requires one { IsWithin (length (drop base stack.now)) one.now }
    requires other { IsWithin (length (drop base stack.now)) other.now }
    requires known { AreKnown (P.place place.now) (drop base stack.now) spreads.old }
    ensures known { IfOk result
        (λ _. AreKnown (P.place place.now) (drop base stack.now) spreads.new) }
    ensures apart { IfOk result (λ r. r
        ≡ parts_apart (P.place place.now) (drop base stack.now) one.now other.now) }
{
    if one.symbol == other.symbol {
        return Ok(true);
    }
    match (one.place(), other.place()) {
        (Some(i), Some(j)) => are_texts_apart(place, i, j, stack, base, spreads),
        _ => Ok(true),
    }
}

/// Whether the texts of two entries are kept apart.
fn are_texts_apart<P: Place>(
    place: &P,
    i: usize,
    j: usize,
    stack: &Stack<'_>,
    base: usize,
    spreads: &mut Spreads,
) -> Result<bool, AllocError>
    requires one { i < length (drop base stack.now) }
    requires other { j < length (drop base stack.now) }
    requires known { AreKnown (P.place place.now) (drop base stack.now) spreads.old }
    ensures known { IfOk result
        (λ _. AreKnown (P.place place.now) (drop base stack.now) spreads.new) }
    ensures apart { IfOk result (λ r. r ≡ texts_apart (numbers_apart (P.place place.now))
        (text_at (drop base stack.now) i) (text_at (drop base stack.now) j)) }
{
    let x = spreads.find(place, stack, base, i)?;
    let y = spreads.find(place, stack, base, j)?;
    if spreads.are_long(x, y) {
        are_long_apart(place, i, j, x, y, spreads)
    } else {
        Ok(are_variables_apart(place, spreads.list(x), spreads.list(y)))
    }
}

/// The same for texts with many variables, whose lists have these numbers. A noted pair is not
/// tested again.
fn are_long_apart<P: Place>(
    place: &P,
    i: usize,
    j: usize,
    x: usize,
    y: usize,
    spreads: &mut Spreads,
) -> Result<bool, AllocError>
    requires one { x < length spreads.old.lists }
    requires other { y < length spreads.old.lists }
    requires noted { AreNoted (P.place place.now) spreads.old.notes }
    ensures { IfOk result
        (λ r. (entries : List (List ℕ)) → AreKnown (P.place place.now) entries spreads.old
        → slice_get spreads.old.numbers.items i ≡ Some (suc x)
        → slice_get spreads.old.numbers.items j ≡ Some (suc y)
        → IsTested (P.place place.now) entries i j r spreads.new) }
{
    if spreads.is_tested(i, j) {
        return Ok(true);
    }
    let are_apart = are_lists_apart(place, x, y, spreads)?;
    if are_apart {
        spreads.note(i, j)?;
    }
    Ok(are_apart)
}

/// Whether the variables of two lists are kept apart. A pair of lists that the proof found to be
/// kept apart is not tested again.
fn are_lists_apart<P: Place>(
    place: &P,
    x: usize,
    y: usize,
    spreads: &mut Spreads,
) -> Result<bool, AllocError>
    requires one { x < length spreads.old.lists }
    requires other { y < length spreads.old.lists }
    requires noted { AreNoted (P.place place.now) spreads.old.notes }
    ensures apart { IfOk result (λ r. r ≡ variables_apart (P.place place.now)
        (slice_index_or spreads.old.lists x []) (slice_index_or spreads.old.lists y [])) }
    ensures noted { IfOk result (λ _. AreNoted (P.place place.now) spreads.new.notes) }
    ensures lists { spreads.new.lists ≡ spreads.old.lists }
    ensures numbers { spreads.new.numbers ≡ spreads.old.numbers }
    ensures tested { spreads.new.tested ≡ spreads.old.tested }
{
    let xs = spreads.lists.entry(x);
    let ys = spreads.lists.entry(y);
    if xs.len() > LONGEST {
        return Ok(are_variables_apart(place, xs, ys));
    }
    if spreads.notes.have(xs, ys)? {
        return Ok(true);
    }
    let are_apart = are_variables_apart(place, xs, ys);
    if are_apart {
        spreads.notes.note_last()?;
    }
    Ok(are_apart)
}

/// Gathers the variables of a text, each once.
fn gather<P: Place>(place: &P, text: &[u32], to: &mut Vec<u32>) -> Result<(), AllocError>
    ensures { IfOk result (λ _. HasVariables (P.place place.now) text.now to.new.items) }
{
    to.clear();
    for symbol in text {
        push_variable(place, to, *symbol)?;
    }
    to.sort_unstable();
    to.dedup();
    Ok(())
}

/// Appends the symbol if it is a variable.
fn push_variable<P: Place>(place: &P, to: &mut Vec<u32>, symbol: u32) -> Result<(), AllocError>
    ensures { IfOk result (λ _. to.new.items
        ≡ (if (P.place place.now).is_variable symbol then to.old.items ++ symbol ∷ []
        else to.old.items)) }
{
    if place.is_variable(symbol) {
        to.push(symbol)?;
    }
    Ok(())
}

/// Whether variables have none in common with others, and each pair of them is kept apart.
fn are_variables_apart<P: Place>(place: &P, xs: &[u32], ys: &[u32]) -> bool
    ensures { result ≡ variables_apart (P.place place.now) xs.now ys.now }
{
    for x in xs {
        if !is_variable_apart(place, *x, ys) {
            return false;
        }
    }
    true
}

/// The same for one variable and the others.
fn is_variable_apart<P: Place>(place: &P, x: u32, ys: &[u32]) -> bool
    ensures { result ≡ list_all (variable_apart (P.place place.now) x) ys.now }
{
    for y in ys {
        if x == *y || !place.apart(x, *y) {
            return false;
        }
    }
    true
}
