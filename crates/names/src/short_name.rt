// A name in fixed memory.
ghost use Rattle.std.specs.Prelude.{◌≤◌};

pub const LONGEST_NAME: usize = 24;

// Stays: beside a unit's text, since one type for both would be generic over its size for two uses, in a crate under both.
#[derive(Clone, Copy)]
pub struct ShortName {
    bytes: [u8; LONGEST_NAME],
    len: usize,
    ghost within: { len ≤ 24 },
}

impl ShortName {
    ghost use Rattle.std.specs.Prelude.{◌≡◌, [], length};
    ghost use Rattle.names.specs.ShortNames.{bytes_in};

    // The name of a place that no name has.
    pub(crate) fn empty() -> ShortName
        ensures { bytes_in result ≡ [] }
    {
        ShortName {
            bytes: [0; LONGEST_NAME],
            len: 0,
        }
    }

    pub(crate) fn new(name: &[u8]) -> ShortName
        requires { length name.now ≤ 24 }
        ensures { bytes_in result ≡ name.now }
    {
        let mut bytes = [0; LONGEST_NAME];
        let len = name.len();
        bytes[..len].copy_from_slice(name);
        ShortName { bytes, len }
    }

    pub(crate) fn as_slice(&self) -> &[u8]
        ensures { result.now ≡ bytes_in self.now }
    {
        &self.bytes[..self.len]
    }
}
