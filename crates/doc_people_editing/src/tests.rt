use crate::policies::EDIT_POLICY;
use crate::script::SCRIPT;
use base64::engine::general_purpose::STANDARD;
use doc_page_parts::heap::String;
use sha2::{Digest, Sha256};
use std::test::Fail;

/// Browsers run the script only where its digest is the one that the policy names.
#[test]
fn the_policy_names_the_script(rt: HostRuntime) -> Result<(), Fail> {
    let mut source = String::from_str(rt.alloc(), "; script-src 'sha256-")?;
    STANDARD.encode_string(&Sha256::digest(SCRIPT.as_bytes()), &mut source)?;
    source.push_str("'; ")?;
    assert!(rt; EDIT_POLICY.contains(source.as_str()));
    Ok(())
}
