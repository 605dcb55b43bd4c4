//! Names of fields.

ghost use Rattle.std.specs.Prelude.{◌≡◌};
ghost use Rattle.krb_calls.specs.Field.{number_of, number_told};

/// A field of a session, an expectation or a demand.
#[derive(Clone, Copy, Debug, PartialEq, Eq)]
pub enum Field {
    /// 1: neither KRB-SAFE nor KRB-PRIV.
    Mode,
    /// 2: the sender's address is too long, or one is given where none is demanded.
    Sender,
    /// 3: the receiver's address is too long, or one is given that the messages don't have or nobody demands.
    Receiver,
    /// 4: not zeros.
    Reserved,
    /// 5: no demand that there is.
    HowSender,
    /// 6: no demand that there is.
    HowReceiver,
    /// 7: no demand that there is.
    HowTime,
    /// 8: no demand that there is; of a peer one that doesn't demand the number.
    HowNumber,
    /// 9: a number where none is demanded; of a peer one that is more than one over the last.
    Number,
    /// 10: a skew where no time is demanded.
    Skew,
    /// 11: neither 0 nor 1.
    NeedsTimeOrNumber,
}

impl Field {
    /// The number of the field, from 1 on.
    pub fn number(self) -> u32
        ensures { result ≡ number_of self }
    {
        match self {
            Field::Mode => 1,
            Field::Sender => 2,
            Field::Receiver => 3,
            Field::Reserved => 4,
            Field::HowSender => 5,
            Field::HowReceiver => 6,
            Field::HowTime => 7,
            Field::HowNumber => 8,
            Field::Number => 9,
            Field::Skew => 10,
            Field::NeedsTimeOrNumber => 11,
        }
    }
}

/// The number of a field, and 0 for none.
pub fn field_number(field: Option<Field>) -> u32
    ensures { result ≡ number_told field }
{
    match field {
        Some(field) => field.number(),
        None => 0,
    }
}
