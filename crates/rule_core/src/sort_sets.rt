// Sets of sorts, one for each sort. A set is a list of words of 64 bits. Bit s % 64 of the word s /
// 64 says whether the set contains the sort with the number s. A set does not contain the sorts
// past its end.
ghost use Rattle.std.specs.Prelude.{ℕ, ◌≡◌, ◌<◌, ◌≤◌, ◌/◌, ◌==◌, ◌||◌, ◌&&◌, length, vec_len};
ghost use Rattle.std.specs.Prelude.{false, OnOk, OnErr, IfOk};
ghost use Rattle.std.specs.Prelude.{IsTrue};
ghost use Rattle.rule_core.specs.SubsortFields.{word_at, has, set_at, is_in, reaches, IsClosed};

use std::alloc::{AllocError, Global};
use term_core::SortId;

// The set of this sort.
pub(crate) fn set_of(rows: &[Vec<u64>], a: SortId) -> &[u64]
    ensures { (b : ℕ) → has result.now b ≡ is_in rows.now a.0 b }
{
    match rows.get(a.0 as usize) {
        None => &[],
        Some(row) => row,
    }
}

// Whether the set of the first sort contains the second.
pub(crate) fn is_in(rows: &[Vec<u64>], a: SortId, b: SortId) -> bool
    ensures { result ≡ is_in rows.now a.0 b.0 }
{
    has(set_of(rows, a), b)
}

// Whether the set contains the sort.
fn has(set: &[u64], b: SortId) -> bool
    ensures { result ≡ has set.now b.0 }
{
    set.get(b.0 as usize / 64)
        .is_some_and(|word| (*word >> (b.0 % 64)) & 1 == 1)
}

// Makes sure that there is a set for this sort.
#[tactic(auto, using(crate::proofs::SortSets::set_at_push))]
pub(crate) fn grow(alloc: Global, rows: &mut Vec<Vec<u64>>, a: SortId) -> Result<(), AllocError>
    ensures same { (x y : ℕ) → is_in rows.new.items x y ≡ is_in rows.old.items x y }
    ensures there { OnOk result (a.0 < vec_len rows.new) }
{
    while rows.len() <= a.0 as usize {
        rows.push(Vec::new(alloc))?;
    }
    Ok(())
}

// The set with one more sort.
pub(crate) fn with_sort(alloc: Global, set: &[u64], b: SortId) -> Result<Vec<u64>, AllocError>
    ensures { IfOk result (λ more. (y : ℕ) → has more.items y ≡ (b.0 == y || has set.now y)) }
{
    let mut more = set.to_vec(alloc)?;
    lengthen(&mut more, b.0 as usize / 64 + 1)?;
    insert(&mut more, b);
    Ok(more)
}

// Adds the sort to the set.
fn insert(set: &mut Vec<u64>, b: SortId)
    requires { b.0 / 64 < length set.old.items }
    ensures { (y : ℕ) → has set.new.items y ≡ (b.0 == y || has set.old.items y) }
{
    set[b.0 as usize / 64] |= 1 << (b.0 % 64);
}

// Adds the second sort, and the sorts of its set, to the set of the first and to each set that
// contains the first. It does not change a set that already contains the second, since that set
// also contains every sort above the second.
pub(crate) fn join(
    alloc: Global,
    rows: &mut Vec<Vec<u64>>,
    a: SortId,
    b: SortId,
) -> Result<(), AllocError>
    requires { IsClosed rows.old.items }
    ensures same { OnErr result ((x y : ℕ) → is_in rows.new.items x y ≡ is_in rows.old.items x y) }
    ensures joined { OnOk result ((x y : ℕ) → is_in rows.new.items x y
        ≡ (is_in rows.old.items x y
        || (reaches rows.old.items x a.0 && (b.0 == y || is_in rows.old.items b.0 y)))) }
{
    if is_in(rows, a, b) {
        return Ok(());
    }
    grow(alloc, rows, a)?;
    let more = with_sort(alloc, set_of(rows, b), b)?;
    widen(rows, a, more.len())?;
    merge(rows, a, b, &more);
    Ok(())
}

// Makes the set of the sort, and each set that contains it, at least `len` words long.
fn widen(rows: &mut Vec<Vec<u64>>, a: SortId, len: usize) -> Result<(), AllocError>
    ensures same { (x y : ℕ) → is_in rows.new.items x y ≡ is_in rows.old.items x y }
    ensures count { vec_len rows.new ≡ vec_len rows.old }
    ensures long { OnOk result ((x : ℕ) → x < vec_len rows.new
        → IsTrue (reaches rows.old.items x a.0) → len ≤ length (set_at rows.new.items x)) }
{
    for x in 0..rows.len() {
        if leads(rows, x, a) {
            lengthen(&mut rows[x], len)?;
        }
    }
    Ok(())
}

// Adds these sorts to the set of the sort a and to each set that contains it. A set that contains b
// already contains all of them.
fn merge(rows: &mut Vec<Vec<u64>>, a: SortId, b: SortId, more: &[u64])
    requires there { a.0 < vec_len rows.old }
    requires long { (x : ℕ) → x < vec_len rows.old → IsTrue (reaches rows.old.items x a.0)
        → length more.now ≤ length (set_at rows.old.items x) }
    requires known { (x y : ℕ) → IsTrue (is_in rows.old.items x b.0) → IsTrue (has more.now y)
        → IsTrue (is_in rows.old.items x y) }
    ensures { (x y : ℕ)
        → is_in rows.new.items x y
        ≡ (is_in rows.old.items x y || (reaches rows.old.items x a.0 && has more.now y)) }
{
    let from = first_word(more);
    for x in 0..rows.len() {
        if gets(rows, x, a, b) {
            include(&mut rows[x], more, from);
        }
    }
}

// The index of the first word that is not 0, or the length if there is none.
fn first_word(set: &[u64]) -> usize
    ensures { (k : ℕ) → k < result → word_at set.now k ≡ 0 }
{
    set.iter().position(|word| *word != 0).unwrap_or(set.len())
}

// Whether the sort with the number x is a, or its set contains a, and its set does not contain b.
fn gets(rows: &[Vec<u64>], x: usize, a: SortId, b: SortId) -> bool
    requires { x < length rows.now }
    ensures leads { IsTrue result → IsTrue (reaches rows.now x a.0) }
    ensures known { result ≡ false → IsTrue (reaches rows.now x a.0)
        → IsTrue (is_in rows.now x b.0) }
{
    leads(rows, x, a) && !has(&rows[x], b)
}

// Whether the sort with the number x is the other, or its set contains it.
fn leads(rows: &[Vec<u64>], x: usize, a: SortId) -> bool
    requires { x < length rows.now }
    ensures { result ≡ reaches rows.now x a.0 }
{
    x == a.0 as usize || has(&rows[x], a)
}

// Makes the set at least `len` words long.
fn lengthen(set: &mut Vec<u64>, len: usize) -> Result<(), AllocError>
    ensures same { (y : ℕ) → has set.new.items y ≡ has set.old.items y }
    ensures long { OnOk result (len ≤ length set.new.items) }
{
    if set.len() < len {
        set.resize(len, 0)?;
    }
    Ok(())
}

// Adds the sorts of `more` to the set. The words of `more` before the index `from` are 0.
fn include(set: &mut Vec<u64>, more: &[u64], from: usize)
    requires room { length more.now ≤ length set.old.items }
    requires none { (k : ℕ) → k < from → word_at more.now k ≡ 0 }
    ensures { (y : ℕ) → has set.new.items y ≡ (has set.old.items y || has more.now y) }
{
    for k in from..more.len() {
        set[k] |= more[k];
    }
}
