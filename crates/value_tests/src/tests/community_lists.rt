//! The type that holds communities.

use bgp_wire::Communities;
use std::alloc::{AllocError, Global};
use std::process::Abort;
use std::test::Fail;

/// Asserts that communities are as they were made, a copy of them, and what is left of both.
fn assert_communities(rt: &impl Abort, alloc: Global, numbers: &[u32]) -> Result<(), AllocError> {
    let own = Communities::from_vec(Vec::from_slice(alloc, numbers)?);
    assert_eq!(rt; own.as_slice(), numbers);
    assert_eq!(rt; own.clone()?.as_slice(), numbers);
    assert_eq!(rt; own.into_vec().as_slice(), numbers);
    Ok(())
}

#[test]
fn communities_are_as_made(rt: HostRuntime) -> Result<(), Fail> {
    for numbers in [[1, 2].as_slice(), &[], &[0, 4_294_967_295, 0]] {
        assert_communities(&rt, rt.alloc(), numbers)?;
    }
    Ok(())
}
