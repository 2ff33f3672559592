// What is proved of the header.
ghost use Rattle.std.specs.Prelude.{◌≡◌, true, false, All};
ghost use Rattle.mm_text.specs.Statements.{statements_of};
ghost use Rattle.mm_database.specs.Database.{empty_context};
ghost use Rattle.mm_database.specs.Validity.{HaveNoFault, IsValid};
ghost use Rattle.mm_header.specs.Header.{header_rows};
ghost use Rattle.mm_header.specs.HeaderText.{header_bytes};
ghost use Rattle.mm_header.specs.HeaderContext.{header_context, header_labels};
ghost use Rattle.mm_header.specs.HeaderLaws.{HasOnlyRows, HasRow};
ghost use Rattle.mm_text.specs.Bytes.{has_repeated};
ghost use Rattle.mm_text.specs.Written.{ends_white};

/// The header is a valid Metamath database. So each symbol in it is declared before its use. The
/// context after it is the one that its rows declare: a frame for each row, with its hypotheses,
/// its pairs and its statement, and no other frame. Its labels differ. It ends with white space, so
/// that statements may follow.
pub fn header_laws()
    ensures valid { IsValid header_bytes }
    ensures context { HaveNoFault empty_context (statements_of header_bytes) header_context }
    ensures frames { All (HasRow header_context) header_rows }
    ensures only { HasOnlyRows header_context header_rows }
    ensures labels { has_repeated header_labels ≡ false }
    ensures ends { ends_white header_bytes ≡ true }
{}
