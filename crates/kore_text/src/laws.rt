// Laws on the definitions of `specs/`.
ghost use Rattle.kore_text.specs.TextLaws.{DefinitionFaultIsUnique, DefinitionHasNoFault};
ghost use Rattle.kore_text.specs.TextLaws.{NoMoreTokensThanBytes, PatternFaultIsUnique};
ghost use Rattle.kore_text.specs.TextLaws.{PatternHasNoFault};
ghost use Rattle.kore_text.specs.Identifiers.{NamesAreIdentifiers, PatternNamesAreIdentifiers};

/// A text that spells a definition or a pattern, with at most 500 brackets open, has no fault. The
/// first fault of any other text is unique, in its kind and its byte. No text has more tokens than
/// bytes.
pub fn text_laws()
    ensures definition { DefinitionHasNoFault }
    ensures pattern { PatternHasNoFault }
    ensures one_definition { DefinitionFaultIsUnique }
    ensures one_pattern { PatternFaultIsUnique }
    ensures few { NoMoreTokensThanBytes }
{
    kore_lex::token_laws();
}

/// The names in a tree that bytes spell are identifiers.
pub fn name_laws()
    ensures definition { NamesAreIdentifiers }
    ensures pattern { PatternNamesAreIdentifiers }
{
    kore_lex::token_laws();
}
