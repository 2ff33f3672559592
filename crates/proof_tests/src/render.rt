// Worked examples, written by hand.
ghost use Rattle.std.specs.Prelude.{◌≡◌, ◌<◌, IfOk, length};

use crate::entries::three_names;
use ml_kernel::{AxiomNo, Theory, Thm};
use ml_pat::{ConstNo, MPat, MSort, VarNo};
use mm_render::Renderer;
use std::alloc::{AllocError, Global};

#[test]
fn declares_names(rt: HostRuntime) -> Result<(), AllocError> {
    let alloc = rt.alloc();
    let names = three_names(alloc)?;
    let mut renderer = Renderer::new(rt.alloc());
    let mut text = Vec::new(alloc);
    renderer.declare(&names, &mut text)?;
    assert_eq!(rt;
        text.as_slice(),
        b"$c s:S $.\nn.0 $a #Sort s:S $.\n$c f:a $.\nn.1 $a #Pattern f:a $.\n$c f:f $.\nn.2 $a \
            #Pattern f:f \
        $.\n"
            .as_slice()
    );
    Ok(())
}

#[test]
fn begins_with_the_header(rt: HostRuntime) -> Result<(), AllocError> {
    let mut renderer = Renderer::new(rt.alloc());
    let mut text = Vec::new(rt.alloc());
    renderer.begin(&mut text)?;
    assert_eq!(rt; text.len(), 5968);
    Ok(())
}

// The theory whose only axiom is f applied to a.
pub(crate) fn one_axiom(alloc: Global) -> Result<Theory, AllocError>
    ensures { IfOk result (λ theory. length theory ≡ 1) }
{
    let mut theory = Theory::new(alloc);
    let f = MPat::constant(alloc, ConstNo(2))?;
    let a = MPat::constant(alloc, ConstNo(1))?;
    theory.add(MPat::app(alloc, &f, &a)?)?;
    Ok(theory)
}

// It follows from an axiom that it holds at some time.
pub(crate) fn some_time(alloc: Global, theory: &Theory) -> Result<Thm, AllocError>
    requires { 0 < length theory.now }
{
    let axiom = theory.axiom(alloc, AxiomNo(0))?;
    let now = axiom.conclusion().share()?;
    let later = MPat::ev(alloc, &now)?;
    let step = Thm::ev_1(alloc, &now)?;
    Thm::mp(alloc, &axiom, &step, &now, &later)
}

// Writes the axiom, and the lemma that follows from it.
pub(crate) fn state(
    alloc: Global,
    renderer: &mut Renderer,
    text: &mut Vec<u8>,
) -> Result<(), AllocError> {
    let names = three_names(alloc)?;
    let theory = one_axiom(alloc)?;
    let lemma = some_time(alloc, &theory)?;
    renderer.axiom(&names, &theory, AxiomNo(0), text)?;
    renderer.lemma(&names, &lemma, text)
}

// The text of an axiom.
fn axiom_text(alloc: Global, theory: &Theory, no: AxiomNo) -> Result<Vec<u8>, AllocError>
    requires { no.0 < length theory.now }
{
    let names = three_names(alloc)?;
    let mut renderer = Renderer::new(alloc);
    let mut text = Vec::new(alloc);
    renderer.axiom(&names, theory, no, &mut text)?;
    Ok(text)
}

// The text of a lemma.
fn lemma_text(alloc: Global, lemma: &Thm) -> Result<Vec<u8>, AllocError> {
    let names = three_names(alloc)?;
    let mut renderer = Renderer::new(alloc);
    let mut text = Vec::new(alloc);
    renderer.lemma(&names, lemma, &mut text)?;
    Ok(text)
}

#[test]
fn states_an_axiom(rt: HostRuntime) -> Result<(), AllocError> {
    let theory = one_axiom(rt.alloc())?;
    let text = axiom_text(rt.alloc(), &theory, AxiomNo(0))?;
    assert_eq!(rt;
        text.as_slice(),
        b"t.0 $a |- ( \\app f:f f:a ) $.\n".as_slice()
    );
    Ok(())
}

// The lemma cites the axiom by its label.
#[test]
fn proves_a_lemma(rt: HostRuntime) -> Result<(), AllocError> {
    let mut renderer = Renderer::new(rt.alloc());
    let mut text = Vec::new(rt.alloc());
    state(rt.alloc(), &mut renderer, &mut text)?;
    assert_eq!(rt;
        text.as_slice(),
        b"t.0 $a |- ( \\app f:f f:a ) $.\nt.1 $p |- ( \\ev ( \\app f:f f:a ) ) $= ( n.2 n.1 \
            w.app w.ev t.0 ev.1 mp ) ABCZHDEHFG $.\n"
            .as_slice()
    );
    Ok(())
}

// After the header, the text has exactly the statements of `RenderedCases` of `mm_claims`. The
// definitions say that these have no fault.
#[test]
fn writes_the_database_that_was_judged(rt: HostRuntime) -> Result<(), AllocError> {
    let alloc = rt.alloc();
    let mut renderer = Renderer::new(alloc);
    let mut text = Vec::new(alloc);
    renderer.begin(&mut text)?;
    renderer.declare(&three_names(alloc)?, &mut text)?;
    state(alloc, &mut renderer, &mut text)?;
    assert_eq!(rt;
        text.get(5968..),
        Some(
            b"$c s:S $.\nn.0 $a #Sort s:S $.\n$c f:a $.\nn.1 $a #Pattern f:a $.\n$c f:f $.\nn.2 $a \
                #Pattern f:f \
            $.\nt.0 $a |- ( \\app f:f f:a ) $.\nt.1 $p |- ( \\ev ( \\app f:f f:a ) ) $= ( n.2 \
            n.1 w.app w.ev t.0 ev.1 mp ) ABCZHDEHFG $.\n"
                .as_slice()
        )
    );
    Ok(())
}

// An axiom with a variable, in its block.
#[test]
fn states_an_axiom_with_a_variable(rt: HostRuntime) -> Result<(), AllocError> {
    let alloc = rt.alloc();
    let here = MPat::fun(alloc, &MPat::var(alloc, VarNo(4))?, MSort(0))?;
    let mut theory = Theory::new(alloc);
    let no = theory.add(MPat::all(alloc, VarNo(4), MSort(0), &here)?)?;
    let text = axiom_text(alloc, &theory, no)?;
    assert_eq!(rt;
        text.as_slice(),
        b"${\n$v x:4 $.\nx.0.4 $f #Var x:4 $.\nt.0 $a |- ( \\all x:4 s:S ( \\fun x:4 s:S ) ) $.\n\
            $}\n"
            .as_slice()
    );
    Ok(())
}

// Object variables are disjoint from each other and from each pattern variable. Pattern variables
// may be replaced by the same pattern. A bound variable is an object variable too. Each variable is
// typed once.
#[test]
fn writes_which_variables_stay_apart(rt: HostRuntime) -> Result<(), AllocError> {
    let alloc = rt.alloc();
    let body = MPat::imp(alloc, &MPat::var(alloc, VarNo(2))?, &MPat::meta(alloc, 1)?)?;
    let each = MPat::all(alloc, VarNo(5), MSort(0), &body)?;
    let lemma = Thm::p_1(alloc, &each, &MPat::meta(alloc, 0)?)?;
    let text = lemma_text(alloc, &lemma)?;
    assert_eq!(rt;
        text.as_slice(),
        b"${\n$v x:5 $.\nx.0.5 $f #Var x:5 $.\n$v x:2 $.\nx.0.2 $f #Var x:2 $.\n$v m:1 $.\nm.0.1 \
            $f \
        #Pattern m:1 $.\n$v m:0 $.\nm.0.0 $f #Pattern m:0 $.\n$d x:5 x:2 $.\n$d x:5 x:2 m:1 $.\n$d \
        x:5 x:2 \
        m:0 $.\nt.0 $p |- ( \\imp ( \\all x:5 s:S ( \\imp x:2 m:1 ) ) ( \\imp m:0 ( \\all x:5 s:S \
        ( \\imp \
        x:2 m:1 ) ) ) ) $= ( w.var w.imp n.0 w.all p.1 ) BECFAGHDI $.\n$}\n"
            .as_slice()
    );
    Ok(())
}
