// What is kept of an evaluation besides its value.
ghost use Rattle.std.specs.Prelude.{◌≡◌, List, IfOk, OnOk, map, option_map};
ghost use Rattle.rule_core.specs.Records.{Record, RecordList, OptionalRecord, no_record};
ghost use Rattle.rule_core.specs.Records.{MissList, none_missed, condition_false};
ghost use Rattle.rule_core.specs.Records.{bound as bound_record, itself, made, injected_record};
ghost use Rattle.rule_core.specs.Records.{by_hook as hook_record};
ghost use Rattle.rule_core.specs.Records.{by_equation as equation_record};
ghost use Rattle.rule_core.specs.RecordView.{misses, optional, plain_record, records};
ghost use Rattle.rule_core.specs.declared.records.EvalRecord.{EvalRecord};
ghost use Rattle.rule_core.specs.declared.records.Miss.{Miss};
ghost use Rattle.std.specs.Global.{Box, Global};
ghost use Rattle.fun_eval.specs.RecordLists.{at_end, last_missed, plain_missed, TellsOption};
ghost use Rattle.fun_eval.specs.RecordLists.{with_unmatched};

use rule_core::{EqRecord, EvalRecord, Miss};
use std::alloc::{AllocError, Global};
use term_core::{SortId, Subst, SymId, Term};

/// What is recorded of an evaluation. It is built from the parts of a record in their order: the
/// parts for a node's arguments come before the node. `EvalRecord` keeps all parts, `Unrecorded`
/// none. The error of each call is out of memory.
pub trait Recording: Drop {
    /// What is recorded of equations that are not used, in their order.
    type Misses: Drop;

    // It tells this record, or nothing at all.
    ghost tells: { Self → Record → Type 0 };

    // They tell these records, in order, or nothing at all.
    ghost all_tell: { List Self → RecordList → Type 0 };

    // They tell these misses, in order, or nothing at all.
    ghost misses_tell: { Self.Misses → MissList → Type 0 };

    /// An empty list of records. It takes no memory.
    fn none(alloc: Global) -> Vec<Self>
        ensures { all_tell result.items no_record };

    /// One more record, after the others.
    fn push(others: &mut Vec<Self>, one: Self) -> Result<(), AllocError>
        ensures { OnOk result
            ((rs : RecordList) (r : Record) → all_tell others.old.items rs → tells one r
            → all_tell others.new.items (at_end rs r)) };

    /// No misses. It takes no memory.
    fn none_missed(alloc: Global) -> Self::Misses
        ensures { misses_tell result none_missed };

    /// So many more equations do not match.
    fn unmatched(others: &mut Self::Misses, count: usize) -> Result<(), AllocError>
        ensures { OnOk result ((missed : MissList) → misses_tell others.old missed
            → misses_tell others.new (with_unmatched missed count)) };

    /// One more equation matches with this substitution, and its condition is not true.
    fn failed(others: &mut Self::Misses, subst: Subst, cond: Self) -> Result<(), AllocError>
        ensures { OnOk result
            ((missed : MissList) (r : Record) → misses_tell others.old missed → tells cond r
            → misses_tell others.new (last_missed missed (condition_false subst r))) };

    /// The variable with this number stands for the term.
    fn bound(var: u32, term: &Term) -> Result<Self, AllocError>
        ensures { IfOk result (λ made_now. tells made_now (bound_record var term.now)) };

    /// A domain value has itself as its value.
    fn value(term: &Term) -> Result<Self, AllocError>
        ensures { IfOk result (λ made_now. tells made_now (itself term.now)) };

    /// A constructor built the term from its arguments.
    fn ctor(sym: SymId, args: Vec<Self>, term: &Term) -> Result<Self, AllocError>
        ensures { IfOk result (λ made_now. (rs : RecordList) → all_tell args.items rs
            → tells made_now (made sym.0 rs term.now)) };

    /// The injection from one sort to another built the term.
    fn inj(
        alloc: Global,
        from: SortId,
        to: SortId,
        below: Self,
        term: &Term,
    ) -> Result<Self, AllocError>
        ensures { IfOk result (λ made_now. (r : Record) → tells below r
            → tells made_now (injected_record from.0 to.0 r term.now)) };

    /// The term is the value of a function's hook.
    fn by_hook(sym: SymId, args: Vec<Self>, term: &Term) -> Result<Self, AllocError>
        ensures { IfOk result (λ made_now. (rs : RecordList) → all_tell args.items rs
            → tells made_now (hook_record sym.0 rs term.now)) };

    /// The equation with this number, among those of the function, was used.
    fn by_equation(
        alloc: Global,
        sym: SymId,
        args: Vec<Self>,
        equation: u32,
        subst: Subst,
        cond: Option<Self>,
        body: Self,
        missed: Self::Misses,
    ) -> Result<Self, AllocError>
        ensures { IfOk result (λ made_now.
            (rs : RecordList) (o : OptionalRecord) (r : Record) (ms : MissList)
            → all_tell args.items rs → TellsOption tells cond o → tells body r
            → misses_tell missed ms
            → tells made_now (equation_record sym.0 rs equation subst o r ms)) };
}

/// A recording that keeps nothing and takes no memory.
#[derive(Clone, Copy, Drop)]
pub struct Unrecorded;

impl Recording for Unrecorded {
    type Misses = Unrecorded;

    ghost tells = { λ _ _. Unit {0} };

    ghost all_tell = { λ _ _. Unit {0} };

    ghost misses_tell = { λ _ _. Unit {0} };

    fn none(alloc: Global) -> Vec<Unrecorded> {
        Vec::new(alloc)
    }

    fn push(_others: &mut Vec<Unrecorded>, _one: Unrecorded) -> Result<(), AllocError> {
        Ok(())
    }

    fn none_missed(_alloc: Global) -> Unrecorded {
        Unrecorded
    }

    fn unmatched(_others: &mut Unrecorded, _count: usize) -> Result<(), AllocError> {
        Ok(())
    }

    fn failed(
        _others: &mut Unrecorded,
        _subst: Subst,
        _cond: Unrecorded,
    ) -> Result<(), AllocError> {
        Ok(())
    }

    fn bound(_var: u32, _term: &Term) -> Result<Unrecorded, AllocError>
        ensures { IfOk result (λ _. (rs : RecordList) → Unit {0} → Unit {0}) }
    {
        Ok(Unrecorded)
    }

    fn value(_term: &Term) -> Result<Unrecorded, AllocError> {
        Ok(Unrecorded)
    }

    fn ctor(_sym: SymId, _args: Vec<Unrecorded>, _term: &Term) -> Result<Unrecorded, AllocError>
        ensures { IfOk result (λ _. (rs : RecordList) → Unit {0} → Unit {0}) }
    {
        Ok(Unrecorded)
    }

    fn inj(
        _alloc: Global,
        _from: SortId,
        _to: SortId,
        below: Unrecorded,
        _term: &Term,
    ) -> Result<Unrecorded, AllocError> {
        Ok(below)
    }

    fn by_hook(_sym: SymId, _args: Vec<Unrecorded>, _term: &Term) -> Result<Unrecorded, AllocError>
        ensures { IfOk result (λ _. (rs : RecordList) → Unit {0} → Unit {0}) }
    {
        Ok(Unrecorded)
    }

    fn by_equation(
        _alloc: Global,
        _sym: SymId,
        _args: Vec<Unrecorded>,
        _equation: u32,
        _subst: Subst,
        cond: Option<Unrecorded>,
        body: Unrecorded,
        _missed: Unrecorded,
    ) -> Result<Unrecorded, AllocError>
        ensures { IfOk result (λ _. (rs : RecordList) (o : OptionalRecord) (r : Record)
            (ms : MissList) → Unit {0} → TellsOption (λ (_ : _) (_ : Record). Unit {0}) cond o
            → Unit {0} → Unit {0} → Unit {0}) }
    {
        Ok(body)
    }
}

impl Recording for EvalRecord {
    type Misses = Vec<Miss>;

    ghost tells = { λ one r. plain_record one ≡ r };

    ghost all_tell = { λ kept rs. records (map plain_record kept) ≡ rs };

    ghost misses_tell = { λ kept missed. misses (map plain_missed kept.items) ≡ missed };

    fn none(alloc: Global) -> Vec<EvalRecord> {
        Vec::new(alloc)
    }

    fn push(others: &mut Vec<EvalRecord>, one: EvalRecord) -> Result<(), AllocError> {
        others.push(one)?;
        Ok(())
    }

    fn none_missed(alloc: Global) -> Vec<Miss> {
        Vec::new(alloc)
    }

    fn unmatched(others: &mut Vec<Miss>, count: usize) -> Result<(), AllocError> {
        for _ in 0..count {
            others.push(Miss::NoMatch)?;
        }
        Ok(())
    }

    fn failed(others: &mut Vec<Miss>, subst: Subst, cond: EvalRecord) -> Result<(), AllocError> {
        others.push(Miss::CondFalse(subst, cond))?;
        Ok(())
    }

    fn bound(var: u32, term: &Term) -> Result<EvalRecord, AllocError> {
        Ok(EvalRecord::Bound(var, term.share()?))
    }

    fn value(term: &Term) -> Result<EvalRecord, AllocError> {
        Ok(EvalRecord::Value(term.share()?))
    }

    fn ctor(sym: SymId, args: Vec<EvalRecord>, term: &Term) -> Result<EvalRecord, AllocError>
        ensures { IfOk result
            (λ made_now. (rs : RecordList) → records (map plain_record args.items) ≡ rs
            → plain_record made_now ≡ made sym.0 rs term.now) }
    {
        Ok(EvalRecord::Ctor(sym, args, term.share()?))
    }

    fn inj(
        alloc: Global,
        from: SortId,
        to: SortId,
        below: EvalRecord,
        term: &Term,
    ) -> Result<EvalRecord, AllocError> {
        Ok(EvalRecord::Inj(from, to, Box::new(alloc, below)?, term.share()?))
    }

    fn by_hook(sym: SymId, args: Vec<EvalRecord>, term: &Term) -> Result<EvalRecord, AllocError>
        ensures { IfOk result
            (λ made_now. (rs : RecordList) → records (map plain_record args.items) ≡ rs
            → plain_record made_now ≡ hook_record sym.0 rs term.now) }
    {
        Ok(EvalRecord::ByHook(sym, args, term.share()?))
    }

    fn by_equation(
        alloc: Global,
        fun: SymId,
        args: Vec<EvalRecord>,
        equation: u32,
        subst: Subst,
        cond: Option<EvalRecord>,
        body: EvalRecord,
        missed: Vec<Miss>,
    ) -> Result<EvalRecord, AllocError>
        ensures { IfOk result (λ made_now.
            (rs : RecordList) (o : OptionalRecord) (r : Record) (ms : MissList)
            → records (map plain_record args.items) ≡ rs
            → TellsOption (λ one k. plain_record one ≡ k) cond o
            → plain_record body ≡ r
            → misses (map plain_missed missed.items) ≡ ms
            → plain_record made_now ≡ equation_record fun.0 rs equation subst o r ms) }
    {
        let cond = boxed(alloc, cond)?;
        let body = Box::new(alloc, body)?;
        let used = EqRecord {
            fun,
            args,
            equation,
            subst,
            cond,
            body,
            missed,
        };
        Ok(EvalRecord::ByEquation(Box::new(alloc, used)?))
    }
}

// The record of a condition in a box, if there is a condition.
fn boxed(alloc: Global, cond: Option<EvalRecord>) -> Result<Option<Box<EvalRecord>>, AllocError>
    ensures { IfOk result
        (λ kept. (o : OptionalRecord) → TellsOption (λ one r. plain_record one ≡ r) cond o
        → optional (option_map (λ (b : Box EvalRecord). plain_record b.value) kept) ≡ o) }
{
    match cond {
        Some(met) => Ok(Some(Box::new(alloc, met)?)),
        None => Ok(None),
    }
}
