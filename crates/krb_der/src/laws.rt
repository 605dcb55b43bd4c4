//! Laws of the grammar: one spelling for each value, and how many bytes a message has at most.

ghost use Rattle.krb_der.specs.Earlier.{SpellsAsEarlier, PartSpellsAsEarlier};
ghost use Rattle.krb_der.specs.Message.{OneSpelling, Spells, SpellsPart, UniqueSpelling};
ghost use Rattle.krb_der.specs.Reading.{FindsSpelt, message_of, part_of};
ghost use Rattle.krb_der.specs.Size.{SmallPart, SmallSafe, SmallPrivate, ShorterInput};

/// One spelling for each value, one value for each spelling, and no spelling begins another: of
/// messages, and of encrypted parts.
pub fn unique_spelling()
    ensures one_spelling { OneSpelling Spells }
    ensures one_part_spelling { OneSpelling SpellsPart }
    ensures messages { UniqueSpelling Spells }
    ensures parts { UniqueSpelling SpellsPart }
{}

/// Reading from left to right, as the definitions of the crates above cite it, finds the value that
/// the bytes spell, and none if they spell nothing. This holds of bytes within the limit, for
/// messages and for encrypted parts.
pub fn reading_laws()
    ensures messages { FindsSpelt Spells message_of }
    ensures parts { FindsSpelt SpellsPart part_of }
{}

/// How long a spelling can be: tags, lengths and numbers take few bytes beside the data, the
/// addresses, the checksum and the cipher. So who keeps to the limits of these never gets
/// [`DerError::TooLong`](crate::DerError::TooLong).
pub fn size_laws()
    ensures part { SmallPart }
    ensures safe { SmallSafe }
    ensures private { SmallPrivate }
    ensures covered { ShorterInput }
{}

/// What spelt a message, or an encrypted part, when messages had at most 65,000 bytes and lengths
/// at most two octets after the first, spells the same today. So a reader of today takes what an
/// earlier sender wrote.
pub fn earlier_spellings()
    ensures messages { SpellsAsEarlier }
    ensures parts { PartSpellsAsEarlier }
{}
