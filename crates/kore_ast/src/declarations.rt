// Reading declarations, modules and definitions.

ghost use Rattle.std.specs.Prelude.{◌≡◌, ◌≤◌, ◌-◌, ℕ, [], List, map, IfOk, OnOk, IsTrue};
ghost use Rattle.kore_ast.specs.Plain.{plain_sort, pattern_tree, plain_import, plain_sort_decl};
ghost use Rattle.kore_ast.specs.Plain.{plain_symbol_decl, plain_alias_decl, plain_axiom_decl};
ghost use Rattle.kore_ast.specs.Plain.{plain_declaration, plain_module, plain_definition};
ghost use Rattle.kore_text.specs.Grammar.{spell_names, spell_attributes, spell_declaration};
ghost use Rattle.kore_text.specs.Grammar.{spell_module, spell_definition};
ghost use Rattle.kore_text.specs.Trees.{DefinitionTree, import_declaration, sort_declaration};
ghost use Rattle.kore_text.specs.Trees.{symbol_declaration, alias_declaration};
ghost use Rattle.kore_text.specs.TokenStream.{end};
ghost use Rattle.kore_ast.specs.declared.reader.Keyword.TheVariants as keywords;
ghost use Rattle.kore_ast.specs.Streams.{seen, keyword_of, is_declared};
ghost use Rattle.kore_ast.specs.Reading.{left, size, Has, Reads, spell_signature_pair};
ghost use Rattle.kore_ast.specs.Reading.{spell_stated, spell_body};

use crate::reader::{Keyword, Reader};
use crate::text::Text;
use crate::tree::{
    AliasDecl, AxiomDecl, Decl, Definition, ImportDecl, Module, Pat, Sort, SortDecl, SymbolDecl,
};
use std::alloc::AllocError;

impl<'a> Reader<'a> {
    /// Names in braces.
    fn params(&mut self) -> Result<Vec<Text>, AllocError>
        ensures exact { IfOk result
            (λ x. Reads spell_names x.items (left self.old) (left self.new)) }
        ensures shorter { OnOk result (size self.new ≤ size self.old - 1) }
    {
        self.pass();
        let mut params = Vec::new(self.alloc);
        while self.another(params.is_empty(), b'}') {
            let (_, name) = self.name()?;
            params.push(name)?;
        }
        Ok(params)
    }

    /// Attributes in brackets.
    #[tactic(auto, using(crate::proofs::Declared::attributes_read))]
    fn attributes(&mut self) -> Result<Vec<Pat>, AllocError>
        ensures exact { IfOk result (λ x.
            Reads spell_attributes (map pattern_tree x.items) (left self.old) (left self.new)) }
        ensures shorter { OnOk result (size self.new ≤ size self.old - 1) }
    {
        self.pass();
        self.patterns(b']')
    }

    /// Sorts in parentheses, a colon and a sort.
    fn signature(&mut self) -> Result<(Vec<Sort>, Sort), AllocError>
        ensures exact { IfOk result (λ x. Reads spell_signature_pair
            (map plain_sort x.0.items, plain_sort x.1) (left self.old) (left self.new)) }
        ensures shorter { OnOk result (size self.new ≤ size self.old - 1) }
    {
        self.pass();
        let args = self.sorts(b')')?;
        self.pass();
        let result = self.sort()?;
        Ok((args, result))
    }

    /// The import of a module.
    fn import_decl(&mut self) -> Result<ImportDecl, AllocError>
        requires { keyword_of (seen (left self.old)) ≡ keywords.Import }
        ensures exact { IfOk result (λ x. Reads spell_declaration
            (import_declaration (plain_import x)) (left self.old) (left self.new)) }
        ensures shorter { OnOk result (size self.new ≤ size self.old - 1) }
    {
        let at = self.pass();
        let (_, name) = self.name()?;
        let attrs = self.attributes()?;
        Ok(ImportDecl { at, name, attrs })
    }

    /// The declaration of a sort.
    fn sort_decl(&mut self, hooked: bool) -> Result<SortDecl, AllocError>
        requires { keyword_of (seen (left self.old)) ≡ keywords.Sort hooked }
        ensures exact { IfOk result (λ x. Reads spell_declaration
            (sort_declaration (plain_sort_decl x)) (left self.old) (left self.new)) }
        ensures shorter { OnOk result (size self.new ≤ size self.old - 1) }
    {
        let at = self.pass();
        let (_, name) = self.name()?;
        let params = self.params()?;
        let attrs = self.attributes()?;
        Ok(SortDecl {
            at,
            hooked,
            name,
            params,
            attrs,
        })
    }

    /// The declaration of a symbol.
    fn symbol_decl(&mut self, hooked: bool) -> Result<SymbolDecl, AllocError>
        requires { keyword_of (seen (left self.old)) ≡ keywords.Symbol hooked }
        ensures exact { IfOk result (λ x. Reads spell_declaration
            (symbol_declaration (plain_symbol_decl x)) (left self.old) (left self.new)) }
        ensures shorter { OnOk result (size self.new ≤ size self.old - 1) }
    {
        let at = self.pass();
        let (_, name) = self.name()?;
        let params = self.params()?;
        let (args, result) = self.signature()?;
        let attrs = self.attributes()?;
        Ok(SymbolDecl {
            at,
            hooked,
            name,
            params,
            args,
            result,
            attrs,
        })
    }

    /// The declaration of an alias.
    fn alias_decl(&mut self) -> Result<AliasDecl, AllocError>
        requires { keyword_of (seen (left self.old)) ≡ keywords.Alias }
        ensures exact { IfOk result (λ x. Reads spell_declaration
            (alias_declaration (plain_alias_decl x)) (left self.old) (left self.new)) }
        ensures shorter { OnOk result (size self.new ≤ size self.old - 1) }
    {
        let at = self.pass();
        let (_, name) = self.name()?;
        let params = self.params()?;
        let (args, result) = self.signature()?;
        self.pass();
        let (_, left_name) = self.name()?;
        self.pass();
        let left_sorts = self.sorts(b'}')?;
        self.pass();
        let vars = self.patterns(b')')?;
        self.pass();
        let body = self.pattern()?;
        let attrs = self.attributes()?;
        Ok(AliasDecl {
            at,
            hooked: false,
            name,
            params,
            args,
            result,
            left_name,
            left_sorts,
            vars,
            body,
            attrs,
        })
    }

    /// An axiom or a claim.
    fn axiom_decl(&mut self) -> Result<AxiomDecl, AllocError>
        ensures exact { IfOk result (λ x. (word : List ℕ)
            → Reads (spell_stated word) (plain_axiom_decl x) (left self.old) (left self.new)) }
        ensures shorter { OnOk result (size self.new ≤ size self.old - 1) }
    {
        let at = self.pass();
        let params = self.params()?;
        let pat = self.pattern()?;
        let attrs = self.attributes()?;
        Ok(AxiomDecl {
            at,
            params,
            pat,
            attrs,
        })
    }

    /// A declaration.
    #[tactic(auto, using(crate::proofs::Declared::axiom_read, crate::proofs::Declared::claim_read))]
    fn declaration(&mut self) -> Result<Decl, AllocError>
        ensures exact { IfOk result
            (λ x. Reads spell_declaration (plain_declaration x) (left self.old) (left self.new)) }
        ensures shorter { OnOk result (size self.new ≤ size self.old - 1) }
    {
        match self.keyword() {
            Keyword::Import => Ok(Decl::Import(self.import_decl()?)),
            Keyword::Sort(hooked) => Ok(Decl::SortDecl(self.sort_decl(hooked)?)),
            Keyword::Symbol(hooked) => Ok(Decl::SymbolDecl(self.symbol_decl(hooked)?)),
            Keyword::Alias => Ok(Decl::Alias(self.alias_decl()?)),
            Keyword::Axiom => Ok(Decl::Axiom(self.axiom_decl()?)),
            Keyword::Claim | Keyword::Nothing => Ok(Decl::Claim(self.axiom_decl()?)),
        }
    }

    /// Whether the next token begins a declaration.
    #[tactic(auto, using(crate::proofs::Steps::keyed))]
    fn has_declaration(&self) -> bool
        ensures same { result ≡ is_declared (keyword_of (seen (left self.now))) }
        ensures some { IsTrue result → 1 ≤ size self.now }
    {
        !matches!(self.keyword(), Keyword::Nothing)
    }

    /// Declarations, up to and including the word that ends their module.
    fn body(&mut self) -> Result<Vec<Decl>, AllocError>
        ensures exact { IfOk result (λ x.
            Reads spell_body (map plain_declaration x.items) (left self.old) (left self.new)) }
        ensures shorter { OnOk result (size self.new ≤ size self.old - 1) }
    {
        let mut decls = Vec::new(self.alloc);
        while self.has_declaration() {
            let decl = self.declaration()?;
            decls.push(decl)?;
        }
        self.pass();
        Ok(decls)
    }

    /// A module.
    fn module(&mut self) -> Result<Module, AllocError>
        ensures exact { IfOk result
            (λ x. Reads spell_module (plain_module x) (left self.old) (left self.new)) }
        ensures shorter { OnOk result (size self.new ≤ size self.old - 1) }
    {
        let at = self.pass();
        let (_, name) = self.name()?;
        let decls = self.body()?;
        let attrs = self.attributes()?;
        Ok(Module {
            at,
            name,
            decls,
            attrs,
        })
    }

    /// A definition, up to the end of the text.
    pub(crate) fn definition(&mut self) -> Result<Definition, AllocError>
        ensures exact { IfOk result (λ x. (t : DefinitionTree) (e : ℕ)
            → Has (spell_definition t []) (left self.old) (end e) → t ≡ plain_definition x) }
    {
        let attrs = self.attributes()?;
        let mut modules = Vec::new(self.alloc);
        while !self.is_done() {
            let module = self.module()?;
            modules.push(module)?;
        }
        Ok(Definition { attrs, modules })
    }
}
