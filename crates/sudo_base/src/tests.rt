//! Tests of the map from names.

use crate::Names;
use std::test::Fail;

#[test]
fn a_name_has_its_place(rt: HostRuntime) -> Result<(), Fail> {
    let mut names = Names::new(rt.alloc());
    names.insert(rt.alloc(), b"ADMINS", 7)?;
    assert_eq!(rt; names.get(b"ADMINS"), Some(7));
    assert_eq!(rt; names.get(b"admins"), None);
    assert_eq!(rt; names.get(b""), None);
    Ok(())
}
