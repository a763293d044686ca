// The call in the bytes of a message.
ghost use Rattle.std.specs.Prelude.{◌≡◌, Ok};
ghost use Rattle.session.specs.Questions.{ask};
ghost use Rattle.message.specs.Calls.{call_in, decoded};
ghost use Rattle.message.specs.declared.fault.MessageFault.TheVariants.{NotZero};

use crate::fault::MessageFault;
use crate::fields::Fields;
use crate::letters::{Verb, flag_of, kind_of, side_of};
use order::{Quote, Ticket};
use session::Call;

/// The call in the bytes of a message. Refuses when the verb is unknown (4), the kind, the side or the flag that the verb uses is not legal (5),
/// or a byte that it does not use is not 0 (6).
pub fn decode(bytes: &[u8; 16]) -> Result<Call, MessageFault>
    ensures value { result ≡ decoded bytes.now }
{
    let fields = Fields::of(bytes);
    let verb = Verb::of(fields.verb).ok_or(MessageFault::UnknownVerb)?;
    call_in(verb, fields)
}

/// The call of a verb in these fields.
fn call_in(verb: Verb, fields: Fields) -> Result<Call, MessageFault>
    ensures value { result ≡ call_in verb fields }
{
    let Fields {
        kind,
        side,
        flag,
        number,
        price,
        quantity,
        ..
    } = fields;
    match verb {
        Verb::Time => {
            unused(kind == 0 && side == 0 && flag == 0 && number == 0 && price == 0)?;
            Ok(Call::Time(quantity))
        }
        Verb::Sale => {
            unused(kind == 0 && side == 0 && flag == 0 && number == 0 && quantity == 0)?;
            Ok(Call::Sale(price))
        }
        Verb::Quote => {
            unused(kind == 0 && side == 0 && flag == 0 && number == 0)?;
            Ok(Call::Quote(Quote {
                bid: price,
                offer: quantity,
            }))
        }
        Verb::Entry => Ok(Call::Entry(Ticket {
            number,
            kind: kind_of(kind).ok_or(MessageFault::Illegal)?,
            side: side_of(side).ok_or(MessageFault::Illegal)?,
            marked: flag_of(flag).ok_or(MessageFault::Illegal)?,
            price,
            size: quantity,
        })),
        Verb::Cancel => {
            let in_error = flag_of(flag).ok_or(MessageFault::Illegal)?;
            unused(kind == 0 && side == 0 && price == 0 && quantity == 0)?;
            Ok(Call::Cancel { number, in_error })
        }
        Verb::Reduction => {
            let in_error = flag_of(flag).ok_or(MessageFault::Illegal)?;
            unused(kind == 0 && side == 0 && price == 0)?;
            Ok(Call::Reduction {
                number,
                size: quantity,
                in_error,
            })
        }
        Verb::Publication => {
            let significant = flag_of(flag).ok_or(MessageFault::Illegal)?;
            unused(kind == 0 && side == 0 && number == 0 && price == 0 && quantity == 0)?;
            Ok(Call::Publication { significant })
        }
        Verb::Close => {
            unused(kind == 0 && side == 0 && flag == 0 && number == 0 && quantity == 0)?;
            Ok(Call::Close(price))
        }
    }
}

/// Are unused bytes 0? Refuses when they are not (6).
fn unused(zero: bool) -> Result<(), MessageFault>
    ensures value { result ≡ ask zero NotZero (Ok tt) }
{
    if zero {
        Ok(())
    } else {
        Err(MessageFault::NotZero)
    }
}
