//! Names of texts.
ghost use Rattle.std.specs.Prelude.{◌≡◌};
ghost use Rattle.std.specs.List.{list_all};
ghost use Rattle.ext_shared.specs.Names.{is_text_name, is_name_byte};

/// The most bytes of a name.
const LONGEST: usize = 64;

/// Whether a text may have this name: 1 to 64 letters and digits of ASCII, `-` and `_`.
pub fn is_text_name(name: &str) -> bool
    ensures { result ≡ is_text_name name.now }
{
    let bytes = name.as_bytes();
    1 <= bytes.len() && bytes.len() <= LONGEST && are_name_bytes(bytes)
}

fn are_name_bytes(bytes: &[u8]) -> bool
    ensures { result ≡ list_all is_name_byte bytes.now }
{
    bytes.iter().all(|byte| is_name_byte(*byte))
}

fn is_name_byte(byte: u8) -> bool
    ensures { result ≡ is_name_byte byte }
{
    byte.is_ascii_alphanumeric() || byte == b'-' || byte == b'_'
}
