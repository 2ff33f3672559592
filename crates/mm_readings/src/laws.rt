// Laws on readings.
ghost use Rattle.mm_readings.specs.ProvingLaws.{FitAfterSubstitution, ProvedHolds};
ghost use Rattle.mm_readings.specs.ProvingLaws.{TheoremIsSound};
ghost use Rattle.mm_readings.specs.ReadingLaws.{RowsAreSound, SpelledIsRead};

/// A text of letters is that of one list of pieces at most: what is spelled is read back.
pub fn text_laws()
    ensures read { SpelledIsRead }
{}

/// Take the frame of any of the 88 rows of the header. Under each reading that is fit for it, its
/// statement holds. A pattern holds if it has a derivation from the axioms by the rules of matching
/// logic, and the judgements hold by their definitions on patterns. A reading is fit if it reads
/// each variable by its type, if the hypotheses hold, and if the pairs share no object variable.
pub fn row_laws()
    ensures rows { RowsAreSound }
{}

/// What a proof tree proves holds under each reading that is fit where the proof stands, if the
/// assertions that are declared there are sound. If an assertion is cited under a substitution, the
/// reading after the substitution is fit for its frame. So the frame of a proved theorem is sound,
/// also if its proof uses variables that the frame does not have.
pub fn proof_laws()
    ensures substitution { FitAfterSubstitution }
    ensures proved { ProvedHolds }
    ensures theorem { TheoremIsSound }
{}
