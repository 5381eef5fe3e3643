// Byte strings of at most 32 bytes: making and reading them.
ghost use Rattle.std.specs.Prelude.{◌≡◌, length, nat_le, Some, None, if◌then◌else◌};
ghost use Rattle.std.specs.Option.{option_map};
ghost use Rattle.column.specs.Columns.{octets};
ghost use Rattle.layout.specs.Written.{short_seen};

use crate::ShortBytes;

impl ShortBytes {
    /// The byte string; none where it has more than 32 bytes.
    #[inline]
    pub fn new(bytes: &[u8]) -> Option<ShortBytes>
        ensures { option_map short_seen result ≡ (if nat_le (length bytes.now) 32 then Some (octets bytes.now) else None) }
    {
        if bytes.len() > 32 {
            return None;
        }
        let mut held = [0; 32];
        held[..bytes.len()].copy_from_slice(bytes);
        Some(ShortBytes {
            bytes: held,
            len: bytes.len() as u8,
        })
    }

    /// Its bytes.
    #[inline]
    pub fn as_slice(&self) -> &[u8]
        ensures { result.now ≡ short_seen self.now }
    {
        &self.bytes[..self.len as usize]
    }
}
