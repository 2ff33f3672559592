// Small proofs, and the labels and letters of their compressed proofs.
use proof_nodes::ProofNodes;
use std::alloc::AllocError;

#[test]
fn lists_each_label_once_and_saves_no_leaf(rt: HostRuntime) -> Result<(), AllocError> {
    let mut nodes = ProofNodes::new(rt.alloc());
    nodes.cite(11, 0)?;
    nodes.cite(30, 0)?;
    nodes.cite(30, 0)?;
    nodes.cite(20, 3)?;
    let proof = nodes.compress(&[10, 11])?;
    assert_eq!(rt; proof.listed.as_slice(), [30, 20].as_slice());
    assert_eq!(rt; proof.letters.as_slice(), b"BCCD".as_slice());
    Ok(())
}

#[test]
fn saves_a_tree_once_and_repeats_it(rt: HostRuntime) -> Result<(), AllocError> {
    let mut nodes = ProofNodes::new(rt.alloc());
    nodes.cite(10, 0)?;
    nodes.cite(20, 1)?;
    nodes.cite(10, 0)?;
    nodes.cite(20, 1)?;
    let node = nodes.last().unwrap();
    nodes.repeat(node)?;
    nodes.cite(30, 3)?;
    let proof = nodes.compress(&[10])?;
    assert_eq!(rt; proof.letters.as_slice(), b"ABZDDC".as_slice());
    Ok(())
}

#[test]
fn spells_numbers_past_20_and_past_120(rt: HostRuntime) -> Result<(), AllocError> {
    let mut mandatory = Vec::new(rt.alloc());
    for label in 0..121 {
        mandatory.push(label)?;
    }
    let mut nodes = ProofNodes::new(rt.alloc());
    nodes.cite(20, 0)?;
    nodes.cite(120, 0)?;
    nodes.cite(121, 2)?;
    let proof = nodes.compress(&mandatory)?;
    assert_eq!(rt; proof.letters.as_slice(), b"UAUUAUUB".as_slice());
    Ok(())
}
