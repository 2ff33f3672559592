// Reading sorts and patterns. The recursion is only as deep as they are nested. Each level is
// inside a bracket that was counted. The kinds of patterns are read by calls of their own, so that a
// level takes the stack of its own kind alone.

ghost use Rattle.std.specs.Prelude.{◌≡◌, ◌≤◌, ◌<◌, ◌-◌, Bool, true, map, IfOk, OnOk, Some};
ghost use Rattle.kore_ast.specs.Plain.{plain_sort, pattern_tree};
ghost use Rattle.kore_text.specs.Grammar.{spell_sort, spell_pattern};
ghost use Rattle.kore_ast.specs.Streams.{seen, head_of, is_textual};
ghost use Rattle.kore_ast.specs.Reading.{left, size, Reads, spell_list, is_closing};
ghost use Rattle.kore_ast.specs.declared.reader.Head.TheVariants as heads;
ghost use Rattle.kore_text.specs.declared.names.Built.TheVariants as built;

use crate::reader::{Head, Reader};
use crate::tree::{Pat, PatForm, Sort, SortForm};
use kore_text::{Binder, Built, Op};
use std::alloc::AllocError;

impl<'a> Reader<'a> {
    /// A sort: a parameter, or a name with sorts in braces.
    #[cycle(sorts)]
    pub(crate) fn sort(&mut self) -> Result<Sort, AllocError>
        ensures exact { IfOk result
            (λ x. Reads spell_sort (plain_sort x) (left self.old) (left self.new)) }
        ensures shorter { OnOk result (size self.new ≤ size self.old - 1) }
    {
        let (at, name) = self.name()?;
        if !self.has_mark(b'{') {
            return Ok(Sort {
                at,
                form: SortForm::Param(name),
            });
        }
        self.pass();
        let sorts = self.sorts(b'}')?;
        Ok(Sort {
            at,
            form: SortForm::App(name, sorts),
        })
    }

    /// Sorts, from the token after their opening bracket up to and including the closing mark.
    #[cycle(sorts)]
    pub(crate) fn sorts(&mut self, close: u8) -> Result<Vec<Sort>, AllocError>
        requires { is_closing close ≡ true }
        ensures exact { IfOk result (λ x. Reads (spell_list spell_sort close)
            (map plain_sort x.items) (left self.old) (left self.new)) }
        ensures shorter { OnOk result (size self.new ≤ size self.old - 1) }
    {
        let mut sorts = Vec::new(self.alloc);
        while self.another(sorts.is_empty(), close) {
            let sort = self.sort()?;
            sorts.push(sort)?;
        }
        Ok(sorts)
    }

    /// A pattern.
    #[cycle(patterns)]
    pub(crate) fn pattern(&mut self) -> Result<Pat, AllocError>
        ensures exact { IfOk result (λ x.
            (b : Bool) → Reads (spell_pattern b) (pattern_tree x) (left self.old) (left self.new)) }
        ensures shorter { OnOk result (size self.new ≤ size self.old - 1) }
    {
        match self.head() {
            Head::Name => self.named(),
            Head::SetName => self.set_variable(),
            Head::Builtin(Built::Connective(op)) => self.connected(op),
            Head::Builtin(Built::Binding(binder)) => self.binding(binder),
            Head::Builtin(Built::Value) => self.domain_value(),
            Head::Builtin(Built::Fold(left)) => self.fold(left),
            Head::Text | Head::Nothing => self.text(),
        }
    }

    /// An element variable, or the application of a symbol.
    #[cycle(patterns)]
    #[inline(never)]
    fn named(&mut self) -> Result<Pat, AllocError>
        requires { head_of (seen (left self.old)) ≡ heads.Name }
        ensures exact { IfOk result (λ x.
            (b : Bool) → Reads (spell_pattern b) (pattern_tree x) (left self.old) (left self.new)) }
        ensures shorter { OnOk result (size self.new ≤ size self.old - 1) }
    {
        let (at, name) = self.name()?;
        if self.has_mark(b':') {
            self.pass();
            let sort = self.sort()?;
            return Ok(Pat {
                at,
                form: PatForm::Elem(name, sort),
            });
        }
        self.pass();
        let sorts = self.sorts(b'}')?;
        self.pass();
        let arguments = self.patterns(b')')?;
        Ok(Pat {
            at,
            form: PatForm::App(name, sorts, arguments),
        })
    }

    /// A set variable.
    #[inline(never)]
    fn set_variable(&mut self) -> Result<Pat, AllocError>
        requires { head_of (seen (left self.old)) ≡ heads.SetName }
        ensures exact { IfOk result (λ x.
            (b : Bool) → Reads (spell_pattern b) (pattern_tree x) (left self.old) (left self.new)) }
        ensures shorter { OnOk result (size self.new ≤ size self.old - 1) }
    {
        let (at, name) = self.set_name()?;
        self.pass();
        let sort = self.sort()?;
        Ok(Pat {
            at,
            form: PatForm::SetVar(name, sort),
        })
    }

    /// A string.
    #[inline(never)]
    fn text(&mut self) -> Result<Pat, AllocError>
        requires { is_textual (head_of (seen (left self.old))) ≡ true }
        ensures exact { IfOk result (λ x.
            (b : Bool) → Reads (spell_pattern b) (pattern_tree x) (left self.old) (left self.new)) }
        ensures shorter { OnOk result (size self.new ≤ size self.old - 1) }
    {
        let (at, text) = self.string()?;
        Ok(Pat {
            at,
            form: PatForm::Text(text),
        })
    }

    /// A connective with its sorts and arguments.
    #[cycle(patterns)]
    #[inline(never)]
    fn connected(&mut self, op: Op) -> Result<Pat, AllocError>
        requires { head_of (seen (left self.old)) ≡ heads.Builtin (built.Connective op) }
        ensures exact { IfOk result (λ x.
            (b : Bool) → Reads (spell_pattern b) (pattern_tree x) (left self.old) (left self.new)) }
        ensures shorter { OnOk result (size self.new ≤ size self.old - 1) }
    {
        let at = self.pass();
        self.pass();
        let sorts = self.sorts(b'}')?;
        self.pass();
        let arguments = self.patterns(b')')?;
        Ok(Pat {
            at,
            form: PatForm::Built(op, sorts, arguments),
        })
    }

    /// A binder with its sorts, its variable and its body.
    #[cycle(patterns)]
    #[inline(never)]
    fn binding(&mut self, binder: Binder) -> Result<Pat, AllocError>
        requires { head_of (seen (left self.old)) ≡ heads.Builtin (built.Binding binder) }
        ensures exact { IfOk result (λ x.
            (b : Bool) → Reads (spell_pattern b) (pattern_tree x) (left self.old) (left self.new)) }
        ensures shorter { OnOk result (size self.new ≤ size self.old - 1) }
    {
        let at = self.pass();
        self.pass();
        let sorts = self.sorts(b'}')?;
        self.pass();
        let variable = self.pattern()?;
        self.pass();
        let body = self.pattern()?;
        self.pass();
        let variable = Box::new(self.alloc, variable)?;
        let body = Box::new(self.alloc, body)?;
        Ok(Pat {
            at,
            form: PatForm::Bound(binder, sorts, variable, body),
        })
    }

    /// A domain value.
    #[inline(never)]
    fn domain_value(&mut self) -> Result<Pat, AllocError>
        requires { head_of (seen (left self.old)) ≡ heads.Builtin built.Value }
        ensures exact { IfOk result (λ x.
            (b : Bool) → Reads (spell_pattern b) (pattern_tree x) (left self.old) (left self.new)) }
        ensures shorter { OnOk result (size self.new ≤ size self.old - 1) }
    {
        let at = self.pass();
        self.pass();
        let sort = self.sort()?;
        self.pass();
        self.pass();
        let (place, text) = self.string()?;
        self.pass();
        Ok(Pat {
            at,
            form: PatForm::Value(sort, text, place),
        })
    }

    /// A fold.
    #[cycle(patterns)]
    #[inline(never)]
    fn fold(&mut self, from_left: bool) -> Result<Pat, AllocError>
        requires { head_of (seen (left self.old)) ≡ heads.Builtin (built.Fold from_left) }
        ensures exact { IfOk result (λ x.
            (b : Bool) → Reads (spell_pattern b) (pattern_tree x) (left self.old) (left self.new)) }
        ensures shorter { OnOk result (size self.new ≤ size self.old - 1) }
    {
        let at = self.pass();
        self.pass();
        self.pass();
        self.pass();
        let folded = self.pattern()?;
        self.pass();
        let folded = Box::new(self.alloc, folded)?;
        Ok(Pat {
            at,
            form: PatForm::Fold(from_left, folded),
        })
    }

    /// Patterns, from the token after their opening bracket up to and including the closing mark.
    #[cycle(patterns)]
    pub(crate) fn patterns(&mut self, close: u8) -> Result<Vec<Pat>, AllocError>
        requires { is_closing close ≡ true }
        ensures exact { IfOk result (λ x. (b : Bool)
            → Reads (spell_list (spell_pattern b) close) (map pattern_tree x.items) (left self.old)
            (left self.new)) }
        ensures shorter { OnOk result (size self.new ≤ size self.old - 1) }
    {
        let mut patterns = Vec::new(self.alloc);
        while self.another(patterns.is_empty(), close) {
            let pattern = self.pattern()?;
            patterns.push(pattern)?;
        }
        Ok(patterns)
    }
}
