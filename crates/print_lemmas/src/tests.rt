// What is printed, written by hand.
use crate::database;
use std::test::Fail;

// After the header, the text has exactly the names and the blocks of `RenderedCases` of
// `mm_claims`. The definitions say that these have no fault.
#[test]
fn prints_the_blocks_that_were_judged(rt: HostRuntime) -> Result<(), Fail> {
    let text = database(rt.alloc())?;
    assert_eq!(rt;
        text.get(5968..),
        Some(
            b"$c s:S $.\nn.0 $a #Sort s:S $.\n$c f:a $.\nn.1 $a #Pattern f:a $.\n$c f:f $.\nn.2 \
            $a #Pattern f:f $.\n${\n$v x:0 $.\nx.0.0 $f #Var x:0 $.\n$v m:0 $.\nm.0.0 $f \
            #Pattern m:0 $.\n$d x:0 m:0 $.\ne.0.0 $e |- ( \\imp x:0 m:0 ) $.\nt.0 $p |- ( \\imp \
            ( \\next x:0 ) ( \\next m:0 ) ) $= ( w.var next.in ) ADBCE $.\n$}\n${\n$v x:0 \
            $.\nx.1.0 $f #Var x:0 $.\ne.1.0 $e |- ( \\imp x:0 f:a ) $.\nt.1 $p |- ( \\imp ( \
            \\next x:0 ) ( \\next f:a ) ) $= ( n.1 t.0 ) ACBD $.\n$}\n${\n$v m:3 $.\nm.2.3 $f \
            #Pattern m:3 $.\nt.2 $p |- \\top $= ( m.2.3 w.imp w.top p.1 top mp ) \
            AAABBZCAADCGCBECGDFF $.\n$}\n${\n$v x:0 $.\nx.3.0 $f #Var x:0 $.\n$v x:1 $.\nx.3.1 \
            $f #Var x:1 $.\n$v m:0 $.\nm.3.0 $f #Pattern m:0 $.\n$d x:0 x:1 $.\n$d x:0 x:1 m:0 \
            $.\nt.3 $p |- ( \\imp ( \\all x:0 s:S ( \\imp ( \\ex x:1 s:S ( \\app x:1 m:0 ) ) ( \
            \\app x:0 ( \\all x:0 s:S ( \\fun x:0 s:S ) ) ) ) ) ( \\imp ( \\fun f:a s:S ) ( \
            \\imp ( \\ex x:1 s:S ( \\app x:1 m:0 ) ) ( \\app f:a ( \\all x:0 s:S ( \\fun x:0 \
            s:S ) ) ) ) ) ) $= ( w.var w.app n.0 w.ex w.fun w.all w.imp n.1 fr.d su.f su.v \
            fr.allb su.app su.imp inst ) \
            BDCEBFGZADZTFHZAFIZEZJKSKUBEZJAFSUCUDSKASKASALMTUBUBKKAKANUBKAUAAFOMPQR $.\n$}\n"
                .as_slice()
        )
    );
    Ok(())
}
