//! From a frame that opens to bytes and their code.

ghost use Rattle.krb_forgery.specs.Forgery.{BreaksFindBytes, HeadlineWhereNoneFound, NoneFoundIsNoForgery, NoneIsReflected, OpensCodedBytes};

/// What somebody holds who has made a receiver accept what nobody sealed.
///
/// Each frame that opens shows bytes, and the code of these bytes under the key of the opener's codes. Where somebody
/// with the key coded these bytes of user data at a number, the frame opens at that number, gives that data, and comes
/// from that sender's address (`shows`). So an end with another sender's address never coded them (`reflected`).
///
/// A break is a frame that a receiver accepts though it was sealed of none of the session's records and carries another
/// one than that of its number, whoever made it, in whatever session. From each, bytes are found that were coded of none
/// of the records, and their code (`finds`). So where nobody found such bytes, an attempt has the premise of the
/// headline, `no_forgery` (`premise`), and what is delivered is a prefix of the texts, in order and each once, and all of
/// them if the close was accepted (`headline`).
pub fn forgery_laws()
    ensures shows { OpensCodedBytes }
    ensures reflected { NoneIsReflected }
    ensures finds { BreaksFindBytes }
    ensures premise { NoneFoundIsNoForgery }
    ensures headline { HeadlineWhereNoneFound }
{}
