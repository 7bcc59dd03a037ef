// What clones share.
use crate::Twins;
use std::rc::Rc;
use std::test::Fail;

// The triangles of a tetrahedron.
const TETRAHEDRON: [[u32; 3]; 4] = [[0, 2, 1], [0, 1, 3], [1, 2, 3], [2, 0, 3]];

#[test]
fn a_clone_shares_both_lists(rt: HostRuntime) -> Result<(), Fail> {
    let twins = Twins::of(rt.alloc(), &TETRAHEDRON)?;
    let copy = twins.clone()?;
    assert!(rt; Rc::ptr_eq(&copy.triples, &twins.triples));
    assert!(rt; Rc::ptr_eq(&copy.twins, &twins.twins));
    Ok(())
}
