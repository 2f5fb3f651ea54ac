//! Tags of pages.

ghost use Rattle.std.specs.Prelude.{◌≡◌, ◌++◌, length, codes};
ghost use Rattle.std.specs.Str.{IsAscii};
ghost use Rattle.hex.specs.Hex.{encode_lower};
ghost use Rattle.doc_store_tags.specs.Tags.{tag_of};

use crate::digest::digest_of;
use doc_store_readers::groups::Groups;
use doc_store_readers::page::Page;
use hex::encode_to_slice;
use std::marker::Model;
use std::str::from_utf8;

/// The tag of a page: 64 hexadecimal digits between quotes. Contracts see its bytes.
#[derive(Clone, Copy, Debug, Drop)]
pub struct PageTag {
    bytes: [u8; 66],
}

impl Model for PageTag {
    ghost use Rattle.std.specs.Prelude.{ℕ, List as Seq};
    ghost use Rattle.std.specs.Str.{IsAscii};

    ghost Value = { Seq ℕ };

    ghost view = { λ t. t.bytes };

    ghost invariant = { λ t. IsAscii t.bytes };

    ghost inverse = { λ bytes. record { bytes = bytes } };
}

impl PageTag {
    /// The tag of the page with these groups and this text. It takes no memory, and time that is linear in them.
    pub fn of(groups: &Groups, text: &str) -> PageTag
        ensures { result ≡ tag_of (record { groups = groups.now; text = text.now }) }
    {
        PageTag {
            bytes: quoted(&digest_of(groups, text)),
        }
    }

    /// The tag of a page that is stored. Its stamp doesn't count.
    pub fn of_page(page: &Page) -> PageTag
        ensures { result ≡ tag_of page.now.page }
    {
        PageTag::of(page.groups(), page.text())
    }

    pub fn bytes(&self) -> &[u8]
        ensures same { result.now ≡ self.now }
        ensures ascii { IsAscii result.now }
    {
        self.bytes.as_slice()
    }

    pub fn text(&self) -> &str
        ensures { result.now ≡ self.now }
    {
        let Ok(text) = from_utf8(self.bytes()) else {
            unreachable!()
        };
        text
    }
}

/// The hexadecimal digits of a digest, between quotes.
fn quoted(digest: &[u8; 32]) -> [u8; 66]
    ensures { result ≡ codes "\"" ++ encode_lower digest.now ++ codes "\"" }
{
    let mut bytes = [b'"'; 66];
    write_digits(digest, &mut bytes[1..65]);
    bytes
}

/// Writes the hexadecimal digits of a digest.
fn write_digits(digest: &[u8; 32], digits: &mut [u8])
    requires { length digits.old ≡ 64 }
    ensures { digits.new ≡ encode_lower digest.now }
{
    let Ok(()) = encode_to_slice(digest.as_slice(), digits) else {
        unreachable!()
    };
}
