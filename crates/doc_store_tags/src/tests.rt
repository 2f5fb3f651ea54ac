use crate::page_tag::PageTag;
use doc_store_readers::groups::Groups;
use std::test::Fail;

/// By Python: `hashlib.sha256(b"ops,staff\nx\n").hexdigest()`.
#[test]
fn a_tag(rt: HostRuntime) -> Result<(), Fail> {
    let groups = Groups::new(rt.alloc(), "staff,ops")?;
    let tag = PageTag::of(&groups, "x\n");
    assert!(rt;
        tag.text() == "\"57c12b078c89ee19d2b7ba05aa997e4db32f2c66029ef176dbe170dffc6e753b\""
    );
    Ok(())
}
