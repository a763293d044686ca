// Why a file refuses: its own questions, those of its messages, and the session's refusals inside theirs.
ghost use Rattle.std.specs.Prelude.{◌≡◌};
ghost use Rattle.message.specs.Faults.{layer_number, message_question, message_layer, file_question, file_layer};

use session::SessionFault;
use std::error::Error;
use std::fmt;

/// A layer of a file, by the questions that it puts.
#[derive(Clone, Copy, PartialEq, Eq, Debug)]
pub enum Layer {
    /// The file: questions 1 to 3.
    File = 1,
    /// Its messages: 4 to 6.
    Message = 2,
    /// The session: all others.
    Session = 3,
}

impl Layer {
    /// The number of the layer.
    pub fn number(self) -> u8
        ensures value { result ≡ layer_number self }
    {
        self as u8
    }
}

/// Why a message is refused: the question that is answered no. They are put in this order.
#[derive(Clone, Copy, PartialEq, Eq, Debug)]
pub enum MessageFault {
    /// Is the verb known?
    UnknownVerb,
    /// Are the kind, side and flag that the verb uses legal?
    Illegal,
    /// Are unused bytes 0?
    NotZero,
    /// The session refuses the call.
    Session(SessionFault),
}

impl MessageFault {
    /// The number of the question that is answered no; where the session's refusal is carried, that one's.
    pub fn question(self) -> u8
        ensures value { result ≡ message_question self }
    {
        match self {
            MessageFault::UnknownVerb => 4,
            MessageFault::Illegal => 5,
            MessageFault::NotZero => 6,
            MessageFault::Session(fault) => fault.question(),
        }
    }

    /// The layer that puts it: the session, where its refusal is carried.
    pub fn layer(self) -> Layer
        ensures value { result ≡ message_layer self }
    {
        match self {
            MessageFault::UnknownVerb | MessageFault::Illegal | MessageFault::NotZero => {
                Layer::Message
            }
            MessageFault::Session(_) => Layer::Session,
        }
    }
}

/// The ground of the refusal, in words.
// By hand: a derived text has no contract.
impl fmt::Display for MessageFault {
    ghost use Rattle.std.specs.Prelude.{Some};
    ghost use Rattle.message.specs.Texts.{message_text};

    ghost output = { λ fault. Some (message_text fault) };

    ghost styled_output = { λ fault _. Some (message_text fault) };

    fn fmt<W: fmt::Write>(&self, f: &mut fmt::Formatter<W>) -> fmt::Result {
        f.write_str(match self {
            MessageFault::UnknownVerb => "the verb is unknown",
            MessageFault::Illegal => "the kind, the side or the flag is not legal",
            MessageFault::NotZero => "an unused byte is not 0",
            MessageFault::Session(fault) => return fmt::Display::fmt(fault, f),
        })
    }
}

impl Error for MessageFault {}

/// The session's refusal, carried whole.
// By hand: a clause names the fault, and a derived conversion has no contract.
impl From<SessionFault> for MessageFault {
    ghost use Rattle.message.specs.declared.fault.MessageFault.TheVariants.{Session as OfSession};

    ghost from_gives = { λ fault r. r ≡ OfSession fault };

    fn from(fault: SessionFault) -> MessageFault {
        MessageFault::Session(fault)
    }
}

/// Why a file refuses: the question that is answered no. They are put in this order.
#[derive(Clone, Copy, PartialEq, Eq, Debug)]
pub enum FileFault {
    /// Do three bytes read CLO?
    NoMark,
    /// Do two more say version 1?
    OtherVersion,
    /// Is the message whole, and not past the last that a file may have?
    NoMessage,
    /// The message is refused.
    Message(MessageFault),
}

impl FileFault {
    /// The number of the question that is answered no; where a message's refusal is carried, that one's.
    pub fn question(self) -> u8
        ensures value { result ≡ file_question self }
    {
        match self {
            FileFault::NoMark => 1,
            FileFault::OtherVersion => 2,
            FileFault::NoMessage => 3,
            FileFault::Message(fault) => fault.question(),
        }
    }

    /// The layer that puts it; where a message's refusal is carried, that one's.
    pub fn layer(self) -> Layer
        ensures value { result ≡ file_layer self }
    {
        match self {
            FileFault::NoMark | FileFault::OtherVersion | FileFault::NoMessage => Layer::File,
            FileFault::Message(fault) => fault.layer(),
        }
    }
}

/// The ground of the refusal, in words.
impl fmt::Display for FileFault {
    ghost use Rattle.std.specs.Prelude.{Some};
    ghost use Rattle.message.specs.Texts.{file_text};

    ghost output = { λ fault. Some (file_text fault) };

    ghost styled_output = { λ fault _. Some (file_text fault) };

    fn fmt<W: fmt::Write>(&self, f: &mut fmt::Formatter<W>) -> fmt::Result {
        f.write_str(match self {
            FileFault::NoMark => "the file does not begin with CLO",
            FileFault::OtherVersion => "the file is not of version 1",
            FileFault::NoMessage => "the message is cut, or past the 1,000,000th",
            FileFault::Message(fault) => return fmt::Display::fmt(fault, f),
        })
    }
}

impl Error for FileFault {}

/// The message's refusal, carried whole.
impl From<MessageFault> for FileFault {
    ghost use Rattle.message.specs.declared.fault.FileFault.TheVariants.{Message as OfMessage};

    ghost from_gives = { λ fault r. r ≡ OfMessage fault };

    fn from(fault: MessageFault) -> FileFault {
        FileFault::Message(fault)
    }
}
