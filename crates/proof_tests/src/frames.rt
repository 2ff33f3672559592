// Worked examples: small databases and the first fault of their declarations.

use mm_frame::*;
use mm_scope::*;
use mm_text::{MmFault, MmFound, MmReadEnd, MmTokens};
use std::alloc::{AllocError, Global};
use std::process::Abort;

/// The greatest number of statements of a database below.
const MOST: usize = 40;

/// The first fault of a text. Proofs are not checked.
pub(crate) fn first_fault(alloc: Global, text: &[u8]) -> Result<Option<MmFault>, AllocError> {
    let mut scopes = Scopes::new(alloc);
    let mut reader = MmTokens::new(text);
    let mut tokens = Vec::new(alloc);
    for _ in 0..MOST {
        match reader.next_statement(&mut tokens) {
            Err(MmReadEnd::Fault(fault)) => return Ok(Some(fault)),
            Err(MmReadEnd::Memory) => return Err(AllocError),
            Ok(MmFound::Unended(at)) => return Ok(Some(MmFault { kind: 3, at })),
            Ok(MmFound::End) => {
                return Ok(match scopes.unclosed() {
                    None => None,
                    Some(at) => Some(MmFault { kind: 10, at }),
                });
            }
            Ok(MmFound::Statement) => match scopes.statement(alloc, text, &tokens) {
                Err(FrameEnd::Fault(fault)) => return Ok(Some(fault)),
                Err(FrameEnd::Memory) => return Err(AllocError),
                Ok(_) => {}
            },
        }
    }
    Err(AllocError)
}

static FAULTS: [(&str, Option<(u8, usize)>); 58] = [
    ("", None),
    (" $( a comment $) ", None),
    (
        "$c t $. $v x y $. fx $f t x $. fy $f t y $. ax $a t x y $.",
        None,
    ),
    (
        "$c t $. ${ $v x $. fx $f t x $. $} $v x $. gx $f t x $.",
        None,
    ),
    ("$c t $. ${ $v x $. $} ${ $v x $. fx $f t x $. $}", None),
    ("$c t $. $v x $. ${ fx $f t x $. $} gx $f t x $.", None),
    (
        "$c t $. $v x y $. fx $f t x $. $d x y $. ${ h $e t x $. a $a t $. $}",
        None,
    ),
    ("$c t $. p $p t $= anything at all $.", None),
    ("$c t \x01 $.", Some((1, 5))),
    ("$( \x01 $) $c t $.", Some((1, 3))),
    ("$c t $. $( ", Some((2, 8))),
    ("$( a$(b $) ", Some((2, 0))),
    ("$c t $) $.", Some((2, 5))),
    ("$x $. $)", Some((3, 0))),
    ("$c t $. $x t $.", Some((3, 8))),
    ("$[ set.mm $]", Some((3, 0))),
    ("$c t $. $v x", Some((3, 8))),
    ("$.", Some((3, 0))),
    ("l $.", Some((3, 0))),
    ("$c $.", Some((3, 0))),
    ("$v $.", Some((3, 0))),
    ("l ${ $.", Some((3, 0))),
    ("$c t $a $.", Some((3, 0))),
    ("$c t $. p $p t $.", Some((3, 8))),
    ("$c t $. p $p t $= a $f $.", Some((3, 8))),
    ("$c t $. p $a t $= a $.", Some((3, 8))),
    ("${ $c t $. $}", Some((4, 3))),
    ("$c t t $.", Some((5, 0))),
    ("$c t $. $c t $.", Some((5, 8))),
    ("$c t $. $v t $.", Some((5, 8))),
    ("$c t $. $v x $. $v x $.", Some((5, 16))),
    ("$v x x $.", Some((5, 0))),
    ("${ $v x $. $} $c x $.", Some((5, 14))),
    ("$c t $. a $a t $. $c a $.", Some((5, 18))),
    ("$c t $. a $a t $. $v a $.", Some((5, 18))),
    ("$c t $. ax $a t u $.", Some((6, 8))),
    ("$c t $. $v x $. ax $a t x $.", Some((6, 16))),
    ("$c t $. $v x $. ax $e t x $.", Some((6, 16))),
    ("$c t $. ${ $v x $. $} fx $f t x $.", Some((6, 22))),
    ("$c t $. $v x $. $d x t $.", Some((6, 16))),
    ("$c t $. ax $a ax $.", Some((6, 8))),
    ("$c t $. $v x $. fx $f t x $. ax $a x $.", Some((7, 29))),
    ("$c t $. ax $a $.", Some((7, 8))),
    ("$c t $. $v x $. fx $f t x x $.", Some((7, 16))),
    ("$c t $. $v x $. fx $f x t $.", Some((7, 16))),
    ("$c t $. $v x $. fx $f t x $. gx $f t x $.", Some((8, 29))),
    ("$c t $. $v x $. fx $f t x $. $d x $.", Some((9, 29))),
    ("$v x $. $d x x $.", Some((9, 8))),
    ("$d $.", Some((9, 0))),
    ("$c t $. $}", Some((10, 8))),
    ("$c t $. ${ ${ $} ${", Some((10, 8))),
    ("$c t $. $a t $.", Some((11, 8))),
    ("l $c t $.", Some((11, 0))),
    ("$c t $. a b $a t $.", Some((11, 8))),
    ("$c t $. a/b $a t $.", Some((11, 8))),
    ("$c t $. a $a t $. a $a t $.", Some((11, 18))),
    ("$c t $. t $a t $.", Some((11, 8))),
    ("$c t $. a b $a u $. $)", Some((6, 8))),
];

#[test]
fn texts_have_their_first_fault(rt: HostRuntime) -> Result<(), AllocError> {
    for (text, expected) in &FAULTS {
        let found = first_fault(rt.alloc(), text.as_bytes())?;
        assert!(rt;
            found.map(|fault| (fault.kind, fault.at)) == *expected,
            "{text}"
        );
    }
    Ok(())
}

const SCOPED: &str =
    "$c t $. $v x y z $. fz $f t z $. fx $f t x $. ${ $v w $. fw $f t w $. fy $f t y $. $d x y w \
        $. h $e t y \
     $. a $a t x $. $}";

/// The scopes after the statements of a text that come before its first fault.
pub(crate) fn scopes_of(alloc: Global, text: &[u8]) -> Result<Scopes<'_>, AllocError> {
    let mut scopes = Scopes::new(alloc);
    let mut reader = MmTokens::new(text);
    let mut tokens = Vec::new(alloc);
    for _ in 0..MOST {
        match reader.next_statement(&mut tokens) {
            Ok(MmFound::Statement) => match scopes.statement(alloc, text, &tokens) {
                Ok(_) => {}
                Err(_) => return Err(AllocError),
            },
            Ok(_) => return Ok(scopes),
            Err(_) => return Err(AllocError),
        }
    }
    Err(AllocError)
}

#[test]
fn a_block_takes_back_what_was_active_and_keeps_its_assertions(
    rt: HostRuntime,
) -> Result<(), AllocError> {
    let scopes = scopes_of(rt.alloc(), SCOPED.as_bytes())?;
    assert!(rt; scopes.active(b"fx").is_some());
    assert!(rt; scopes.active(b"fy").is_none());
    assert!(rt; scopes.active(b"a").is_none());
    assert!(rt; !scopes.apart(1, 2));
    assert!(rt; !scopes.is_variable(0));
    assert!(rt; scopes.is_variable(4));
    assert!(rt; scopes.unclosed().is_none());
    assert!(rt; scopes.token(4) == Some(b"w".as_slice()));
    assert!(rt; scopes.token(5).is_none());
    match scopes.assertion(b"a") {
        None => panic!(rt; "no frame"),
        Some(frame) => {
            assert_eq!(rt; frame.statement.symbols(), [0, 1].as_slice());
            assert_eq!(rt; frame.mandatory.count(), 3);
            let Mandatory::Listed(lists) = &*frame.mandatory else {
                panic!(rt; "not listed");
            };
            assert_eq!(rt; lists.apart.len(), 1);
        }
    }
    Ok(())
}

/// A text, the label of one of its assertions, the labels of that frame's hypotheses, and the
/// numbers of its pairs, each once.
type FrameExample = (
    &'static str,
    &'static str,
    &'static [&'static str],
    &'static [(u32, u32)],
);

static FRAMES: [FrameExample; 6] = [
    (
        "$c t $. $v x y z $. fz $f t z $. fx $f t x $. fy $f t y $. a $a t x z $.",
        "a",
        &["fz", "fx"],
        &[],
    ),
    (
        "$c t $. $v x y z $. fz $f t z $. h $e t z $. fx $f t x $. fy $f t y $. $d x y z $. a $a t \
            x $.",
        "a",
        &["fz", "h", "fx"],
        &[(1, 3)],
    ),
    (
        "$c t $. $v x y z $. fx $f t x $. fy $f t y $. fz $f t z $. $d x y $. $d y z $. $d z x $. \
            a $a t z y $.",
        "a",
        &["fy", "fz"],
        &[(2, 3)],
    ),
    (
        "$c t $. $v x y $. fx $f t x $. fy $f t y $. ${ $d x y $. $} a $a t x y $.",
        "a",
        &["fx", "fy"],
        &[],
    ),
    (
        "$c t $. $v x y $. fx $f t x $. fy $f t y $. $d y x $. ${ h $e t x $. $} ${ a $a t y x x \
            $. $}",
        "a",
        &["fx", "fy"],
        &[(1, 2)],
    ),
    (
        "$c t $. ${ $v x $. fx $f t x $. h $e t x $. $} $v x y $. gy $f t y $. gx $f t x $. $d x y \
            $. a $a t y x $.",
        "a",
        &["gy", "gx"],
        &[(1, 2)],
    ),
];

#[test]
fn frames_have_their_own_hypotheses_in_order_and_their_own_pairs(
    rt: HostRuntime,
) -> Result<(), AllocError> {
    for (text, label, hyps, pairs) in &FRAMES {
        let scopes = scopes_of(rt.alloc(), text.as_bytes())?;
        let Some(frame) = scopes.assertion(label.as_bytes()) else {
            panic!(rt; "no frame: {text}");
        };
        let Mandatory::Listed(lists) = &*frame.mandatory else {
            panic!(rt; "not listed: {text}");
        };
        assert_eq!(rt; lists.hyps.len(), hyps.len(), "{text}");
        for (hyp, expected) in lists.hyps.iter().zip(hyps.iter()) {
            assert!(rt; hyp.label() == expected.as_bytes(), "{text}");
        }
        assert_eq!(rt; lists.apart.len(), pairs.len(), "{text}");
        for (group, (a, b)) in lists.apart.iter().zip(pairs.iter()) {
            assert_eq!(rt; group.len(), 2, "{text}");
            assert!(rt; group.contains(a) && group.contains(b), "{text}");
            assert!(rt; scopes.apart(*a, *b) && scopes.apart(*b, *a), "{text}");
        }
    }
    Ok(())
}
