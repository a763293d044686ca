// The fields of a message.
ghost use Rattle.std.specs.Prelude.{◌≡◌, ◌+◌, ◌≤◌};
ghost use Rattle.message.specs.Fields.{number_at, fields_of};

/// The fields of a message, as they lie in its bytes.
#[derive(Clone, Copy, PartialEq, Eq, Debug)]
pub(crate) struct Fields {
    pub(crate) verb: u8,
    pub(crate) kind: u8,
    pub(crate) side: u8,
    pub(crate) flag: u8,
    pub(crate) number: u32,
    pub(crate) price: u32,
    pub(crate) quantity: u32,
}

impl Fields {
    /// The fields in these bytes.
    pub(crate) fn of(bytes: &[u8; 16]) -> Fields
        ensures value { result ≡ fields_of bytes.now }
    {
        Fields {
            verb: bytes[0],
            kind: bytes[1],
            side: bytes[2],
            flag: bytes[3],
            number: number_at(bytes, 4),
            price: number_at(bytes, 8),
            quantity: number_at(bytes, 12),
        }
    }
}

/// The number in four bytes from `place` on, high byte first.
fn number_at(bytes: &[u8; 16], place: usize) -> u32
    requires { place + 4 ≤ 16 }
    ensures value { result ≡ number_at bytes.now place }
{
    u32::from_be_bytes([
        bytes[place],
        bytes[place + 1],
        bytes[place + 2],
        bytes[place + 3],
    ])
}
