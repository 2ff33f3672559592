// The laws on canonical texts.

ghost use Rattle.kore_print.specs.PrintLaws.{ReadIsReadable, ReadableReadsBack};

/// The canonical text of each pattern that can be read spells that pattern, except for places. A
/// text spells only patterns that can be read.
pub fn print_laws()
    ensures back { ReadableReadsBack }
    ensures only { ReadIsReadable }
{}
