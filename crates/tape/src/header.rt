// The bytes of a header, one after another.
ghost use Rattle.std.specs.Prelude.{◌≡◌};
ghost use Rattle.tape.specs.Standing.{header_byte, awaited_next, header_fault};

use message::FileFault;

/// The byte of a header that is awaited: three that read CLO, and two that say version 1.
#[derive(Clone, Copy, PartialEq, Eq, Debug)]
pub(crate) enum Awaited {
    C,
    L,
    O,
    High,
    Low,
}

impl Awaited {
    /// The byte.
    pub(crate) fn byte(self) -> u8
        ensures value { result ≡ header_byte self }
    {
        match self {
            Awaited::C => b'C',
            Awaited::L => b'L',
            Awaited::O => b'O',
            Awaited::High => 0,
            Awaited::Low => 1,
        }
    }

    /// The one after it, or none.
    pub(crate) fn next(self) -> Option<Awaited>
        ensures value { result ≡ awaited_next self }
    {
        match self {
            Awaited::C => Some(Awaited::L),
            Awaited::L => Some(Awaited::O),
            Awaited::O => Some(Awaited::High),
            Awaited::High => Some(Awaited::Low),
            Awaited::Low => None,
        }
    }

    /// The question that is answered no where another byte comes, or no more.
    pub(crate) fn fault(self) -> FileFault
        ensures value { result ≡ header_fault self }
    {
        match self {
            Awaited::C | Awaited::L | Awaited::O => FileFault::NoMark,
            Awaited::High | Awaited::Low => FileFault::OtherVersion,
        }
    }
}
