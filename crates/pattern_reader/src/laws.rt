// Laws on what a text says.
ghost use Rattle.pattern_reader.specs.ReadingLaws.{ReadingIsUnique, ReadingsAgree};

/// Has no effect at run time. It states that a text says at most one pattern. If its tokens are
/// numbered in another way, it says the same pattern with those numbers.
pub fn reading_laws()
    ensures unique { ReadingIsUnique }
    ensures agree { ReadingsAgree }
{}
