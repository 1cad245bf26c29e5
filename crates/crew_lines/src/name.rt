//! The name of a client.

ghost use Rattle.std.specs.Prelude.{◌≡◌, ◌≤◌, ◌↔◌, IsTrue, option_map};
ghost use Rattle.std.specs.List.{list_all};
ghost use Rattle.crew_lines.specs.NameBytes as Spec;

/// A client's name: 1 to 32 ASCII letters, digits, `-`, `_` or `.`.
#[derive(Clone, Copy, Debug)]
pub struct Name {
    bytes: [u8; 32],
    count: usize,
    ghost within: { count ≤ 32 },
}

impl Name {
    ghost use Rattle.crew_lines.specs.Names.{bytes_of_name};
    ghost use Rattle.crew_lines.specs.NameBytes.{name_in};

    /// The name that these bytes are, if they are one.
    pub fn read(bytes: &[u8]) -> Option<Name>
        ensures { option_map bytes_of_name result ≡ name_in bytes.now }
    {
        if !is_name(bytes) {
            return None;
        }
        let mut all = [0; 32];
        all[..bytes.len()].copy_from_slice(bytes);
        Some(Name {
            bytes: all,
            count: bytes.len(),
        })
    }

    /// Whether it is the same name.
    pub fn is(&self, other: &Name) -> bool
        ensures { IsTrue result ↔ (bytes_of_name self.now ≡ bytes_of_name other.now) }
    {
        self.as_bytes() == other.as_bytes()
    }

    /// Its bytes.
    pub fn as_bytes(&self) -> &[u8]
        ensures { result.now ≡ bytes_of_name self.now }
    {
        &self.bytes[..self.count]
    }
}

// Whether a byte may stand in a name.
fn is_name_byte(byte: u8) -> bool
    ensures { result ≡ Spec.is_name_byte byte }
{
    byte.is_ascii_alphanumeric() || byte == b'-' || byte == b'_' || byte == b'.'
}

// Whether all bytes may.
fn are_name_bytes(bytes: &[u8]) -> bool
    ensures { result ≡ list_all Spec.is_name_byte bytes.now }
{
    bytes.iter().all(|byte| is_name_byte(*byte))
}

// Whether bytes are a name.
fn is_name(bytes: &[u8]) -> bool
    ensures { result ≡ Spec.is_name bytes.now }
{
    1 <= bytes.len() && bytes.len() <= 32 && are_name_bytes(bytes)
}
