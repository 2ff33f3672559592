// The laws of acceptance.
ghost use Rattle.kore_rules.specs.AcceptanceLaws.{AcceptedIsNotRefused, RefusalIsOne};
ghost use Rattle.kore_rules.specs.AcceptanceLaws.{EachTextIsDecided, AcceptedTermIsNotRefused};
ghost use Rattle.kore_rules.specs.AcceptanceLaws.{TermRefusalIsOne, EachTermIsDecided, StartIsOne};
ghost use Rattle.kore_rules.specs.AcceptanceLaws.{DefinitionIsOne, PatternIsOne};
ghost use Rattle.kore_rules.specs.AcceptanceLaws.{DefinitionFaultIsOne, TermFaultIsOne};
ghost use Rattle.kore_rules.specs.AcceptanceLaws.{AxiomFaultIsOne, TextFaultIsOne};
ghost use Rattle.kore_rules.specs.AcceptanceLaws.{TermTextFaultIsOne, SpelledDefinitionIsFaultless};
ghost use Rattle.kore_rules.specs.AcceptanceLaws.{SpelledPatternIsFaultless};
ghost use Rattle.kore_rules.specs.SamePrograms.{ProgramIsOne};

use kore_lex::token_laws;
use kore_sig::signature_laws;
use kore_text::text_laws;
use std::alloc::Global;

/// Does nothing at run time. It gives its caller these laws, for definitions and for terms. Each
/// text is accepted or refused, and none is both. A refused text is refused for one fault only. A
/// definition means one program only, and a term means one start only. A text spells at most one
/// tree. First faults are unique.
///
/// The allocator is never used. It is a parameter because the program that a text means has lists
/// and names, and their values need an allocator.
pub fn acceptance_laws(_alloc: Global)
    ensures exclusive { AcceptedIsNotRefused }
    ensures refusal { RefusalIsOne }
    ensures decided { EachTextIsDecided }
    ensures program { ProgramIsOne }
    ensures exclusive_term { AcceptedTermIsNotRefused }
    ensures refusal_term { TermRefusalIsOne }
    ensures decided_term { EachTermIsDecided }
    ensures start { StartIsOne }
    ensures tree { DefinitionIsOne }
    ensures tree_term { PatternIsOne }
    ensures definition { DefinitionFaultIsOne }
    ensures term { TermFaultIsOne }
    ensures axioms { AxiomFaultIsOne }
    ensures spelled { SpelledDefinitionIsFaultless }
    ensures spelled_term { SpelledPatternIsFaultless }
    ensures text { TextFaultIsOne }
    ensures term_text { TermTextFaultIsOne }
{
    token_laws();
    text_laws();
    signature_laws();
}
