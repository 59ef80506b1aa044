//! The blobs that scripts make, compared with dtc's bytes.
use super::made::made;
use std::test::Fail;

// A script, and the blob of dtc that it makes.
const ROWS: [(&str, &str); 1] = [("+,0:6100000000010000000200ff,2=,-/v;e;", "mixed")];

#[test]
fn sample_rows(rt: HostRuntime) -> Result<(), Fail> {
    for (script, name) in &ROWS {
        let blob = made(rt.alloc(), script)?;
        let wanted = made(rt.alloc(), name)?;
        assert!(rt; blob.as_slice() == wanted.as_slice(), "{script}");
    }
    Ok(())
}
