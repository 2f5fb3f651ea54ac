//! Names of groups.

ghost use Rattle.std.specs.Prelude.{◌≡◌, not, option_copied};
ghost use Rattle.std.specs.List.{find, list_all};
ghost use Rattle.doc_store_readers.specs.Groups.{has_good_length, is_group, is_group_byte, texts_of};

/// How many bytes the name of a group has at most.
const NAME_LIMIT: usize = 32;

/// The first of some names that is none of a group.
pub(crate) fn first_bad_group<'a>(names: &[&'a str]) -> Option<&'a str>
    ensures { option_copied result ≡ find (λ name. not (is_group name)) (texts_of names.now) }
{
    for name in names {
        if !is_group(name) {
            return Some(*name);
        }
    }
    None
}

fn is_group(name: &str) -> bool
    ensures { result ≡ is_group name.now }
{
    has_good_length(name) && has_good_bytes(name.as_bytes())
}

fn has_good_length(name: &str) -> bool
    ensures { result ≡ has_good_length name.now }
{
    !name.is_empty() && name.len() <= NAME_LIMIT
}

fn has_good_bytes(name: &[u8]) -> bool
    ensures { result ≡ list_all is_group_byte name.now }
{
    name.iter().all(|b| is_group_byte(*b))
}

fn is_group_byte(b: u8) -> bool
    ensures { result ≡ is_group_byte b }
{
    b.is_ascii_lowercase() || b.is_ascii_digit() || b == b'-'
}
