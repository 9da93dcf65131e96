//! The order of kinds, and the names of principals.

use qrules::{Kind, PrincipalName};
use std::alloc::{AllocError, Global};

#[test]
fn kinds_come_in_order(rt: HostRuntime) {
    assert!(rt; Kind::User < Kind::Group && Kind::Group < Kind::Project);
}

fn name(alloc: Global, text: &str) -> Result<PrincipalName, AllocError> {
    Ok(PrincipalName::new(String::from_str(alloc, text)?))
}

/// Whether names of these texts are equal.
fn are_equal(alloc: Global, first: &str, second: &str) -> Result<bool, AllocError> {
    let first = name(alloc, first)?;
    Ok(first == name(alloc, second)?)
}

#[test]
fn names_are_equal_where_their_texts_are(rt: HostRuntime) -> Result<(), AllocError> {
    for (text, is_ann) in [("ann", true), ("bob", false)] {
        assert_eq!(rt; are_equal(rt.alloc(), "ann", text)?, is_ann);
    }
    Ok(())
}
