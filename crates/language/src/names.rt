//! The form of a name.

ghost use Rattle.std.specs.Prelude.{◌≡◌};
ghost use Rattle.std.specs.List.{list_all};
ghost use Rattle.language.specs.Language.{is_name, is_name_byte};

/// A byte that a name may have.
fn is_name_byte(byte: u8) -> bool
    ensures { result ≡ is_name_byte byte }
{
    byte.is_ascii_graphic() && byte != b'=' && byte != b'&'
}

/// Whether each byte may stand in a name.
fn are_name_bytes(bytes: &[u8]) -> bool
    ensures { result ≡ list_all is_name_byte bytes.now }
{
    bytes.iter().all(|byte| is_name_byte(*byte))
}

/// Whether a text has the form of a name: 1 to 64 visible ASCII characters, none of them `=` or
/// `&`. `Frame::new` takes names of this form, no two of them equal.
pub fn is_name(name: &str) -> bool
    ensures { result ≡ is_name name.now }
{
    !name.is_empty() && name.len() <= 64 && are_name_bytes(name.as_bytes())
}
