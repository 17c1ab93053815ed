//! Numbers that a text has on each machine.
ghost use Rattle.std.specs.Prelude.{◌≡◌, ◌++◌};
ghost use Rattle.ext_selection.specs.Hashing.{text_number};

use sha1::Sha1;

/// The number of a text in two pieces.
pub(crate) fn text_number(front: &[u8], back: &str) -> u64
    ensures { result ≡ text_number (front.now ++ back.now) }
{
    let mut hasher = Sha1::new();
    hasher.update(front);
    hasher.update(back.as_bytes());
    let digest = hasher.finalize();
    u64::from_be_bytes([
        digest[0], digest[1], digest[2], digest[3], digest[4], digest[5], digest[6], digest[7],
    ])
}
