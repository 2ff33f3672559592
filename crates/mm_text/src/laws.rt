// Laws on the definitions, which the proofs of the reader and the writer use. The definitions are
// also tried on small texts.
ghost use Rattle.mm_text.specs.Cases.{TriedCases};
ghost use Rattle.mm_text.specs.Letters.{NumberInFront, SaveInFront};
ghost use Rattle.mm_text.specs.Places.{EndAt, RunAt, StrayAt, WhiteAt};
ghost use Rattle.mm_text.specs.NumberLaws.{OneSpelling, ReadBack};
ghost use Rattle.mm_text.specs.TextLaws.{AppendedText, WrittenStatement};

/// On some small texts, the definitions agree with the Metamath book.
pub fn tried()
    ensures cases { TriedCases }
{}

/// A text after a text that ends well is read the same as on its own. A written statement is read
/// back.
pub fn text_laws()
    ensures appended { AppendedText }
    ensures written { WrittenStatement }
{}

/// The pieces of a text from a place on, depending on the byte at that place.
pub fn place_laws()
    ensures end { EndAt }
    ensures white { WhiteAt }
    ensures stray { StrayAt }
    ensures run { RunAt }
{}

/// The letters of a compressed proof are read step by step. The letters of a number, or a `Z` after
/// a number, are read as that step. Then the letters after them are read.
pub fn letter_laws()
    ensures number { NumberInFront }
    ensures save { SaveInFront }
{}

/// A number of a compressed proof has one spelling. Letters that were appended for a number are
/// read as that number.
pub fn number_laws()
    ensures one { OneSpelling }
    ensures back { ReadBack }
{}
