// A quick test by marks that labels differ.
ghost use Rattle.std.specs.Prelude.{◌≡◌, ◌<◌, ◌≤◌, true, false, length};
ghost use Rattle.mm_text.specs.Reader.{words_of};
ghost use Rattle.mm_frame.specs.PlainFrames.{plain_hypotheses};
ghost use Rattle.mm_verify.specs.ProofSteps.{clashes, labels_in};
ghost use Rattle.mm_verify.specs.Marks.{mark_of, AreMarked};

use mm_frame::Hyp;
use mm_text::MmToken;
use std::alloc::{AllocError, Global};

/// How many marks there are.
const MARKS: usize = 131072;

/// Marks for labels. They keep their memory from one proof to the next. A mark is set if and only
/// if it has the stamp of the proof. So marks need not be cleared. After the stamps wrap around, an
/// old mark may count as set; this costs only a little time.
#[derive(Drop)]
pub(crate) struct Marks {
    marks: Vec<u16>,
    stamp: u16,
}

impl Marks {
    /// Marks, none of them set for the first proof.
    pub(crate) fn new(alloc: Global) -> Result<Marks, AllocError> {
        let mut marks = Vec::new(alloc);
        marks.resize(MARKS, 0)?;
        Ok(Marks { marks, stamp: 0 })
    }
}

/// Whether each label has a mark that no label of a hypothesis and no label after it has. Then no
/// label occurs twice or is that of a hypothesis. If there are few labels, their marks usually
/// differ. It takes no memory, and time in the number of their bytes.
pub(crate) fn are_surely_distinct(
    bytes: &[u8],
    hyps: &[Hyp<'_>],
    labels: &[MmToken],
    marks: &mut Marks,
) -> bool
    ensures { result ≡ true
        → clashes (labels_in (plain_hypotheses hyps.now)) (words_of bytes.now labels.now) ≡ false }
{
    marks.stamp = marks.stamp.wrapping_add(1);
    have_marks(bytes, hyps, labels, &mut marks.marks, marks.stamp)
}

/// The same, with the marks and the stamp of this proof. A mark is set if and only if it has the
/// stamp.
fn have_marks(
    bytes: &[u8],
    hyps: &[Hyp<'_>],
    labels: &[MmToken],
    marks: &mut [u16],
    stamp: u16,
) -> bool
    ensures { result ≡ true
        → clashes (labels_in (plain_hypotheses hyps.now)) (words_of bytes.now labels.now) ≡ false }
{
    if marks.len() < MARKS {
        return false;
    }
    mark_hypotheses(hyps, marks, stamp);
    let mut at = labels.len();
    while at > 0 {
        at -= 1;
        let place = mark(labels[at].word(bytes));
        if marks[place] == stamp {
            return false;
        }
        marks[place] = stamp;
    }
    true
}

/// Sets the marks of the labels of hypotheses.
fn mark_hypotheses(hyps: &[Hyp<'_>], marks: &mut [u16], stamp: u16)
    requires { 131072 ≤ length marks.old }
    ensures marked { AreMarked (labels_in (plain_hypotheses hyps.now)) stamp marks.new }
    ensures room { length marks.new ≡ length marks.old }
{
    for hyp in hyps {
        let place = mark(hyp.label());
        marks[place] = stamp;
    }
}

/// The mark of a label, by its bytes.
fn mark(label: &[u8]) -> usize
    ensures is { result ≡ mark_of label.now }
    ensures within { result < 131072 }
{
    let mut sum: usize = 0;
    for byte in label {
        sum = (sum * 1597 + *byte as usize) % MARKS;
    }
    sum
}
