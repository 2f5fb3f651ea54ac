//! The digest of a page.

ghost use Rattle.std.specs.Prelude.{◌≡◌, ◌++◌, ◌∷◌, ℕ, List as Seq};
ghost use Rattle.std.specs.List.{flat_map, join_with_byte};
ghost use Rattle.sha2.specs.Hashers.{Holds256};
ghost use Rattle.sha2.specs.Sha256.{sha256};
ghost use Rattle.doc_store_tags.specs.Tags.{names_text, tagged};

use doc_page_parts::text::Text;
use doc_store_readers::groups::Groups;
use sha2::{Digest, Sha256};

/// The SHA-256 of a page's groups and text. They are hashed piece by piece, so neither is copied.
#[tactic(auto, unfolding(crate::specs::Tags::tagged))]
pub fn digest_of(groups: &Groups, text: &str) -> [u8; 32]
    ensures { result ≡ sha256 (tagged (record { groups = groups.now; text = text.now })) }
{
    let mut hasher = Sha256::new();
    hash_names(&mut hasher, groups.names());
    hasher.update(b"\n");
    hasher.update(text.as_bytes());
    hasher.finalize()
}

/// Hashes names, with a comma between two.
fn hash_names(hasher: &mut Sha256, names: &[Text])
    ensures { (before : Seq ℕ) → Holds256 hasher.old before
        → Holds256 hasher.new (before ++ names_text names.now) }
{
    let Some((first, others)) = names.split_first() else {
        return;
    };
    hasher.update(first.get().as_bytes());
    hash_others(hasher, others);
}

/// Hashes names, each behind a comma.
fn hash_others(hasher: &mut Sha256, names: &[Text])
    ensures { (before : Seq ℕ) → Holds256 hasher.old before
        → Holds256 hasher.new (before ++ flat_map (λ name. 44 ∷ name) names.now) }
{
    for name in names {
        hasher.update(b",");
        hasher.update(name.get().as_bytes());
    }
}
