//! Two peers, of which each opens what the other one sealed.

ghost use Rattle.krb_laws.specs.Reflection.{OpenersRefuseOwn, PeersRefuseOwn, AddressesTell};
ghost use Rattle.krb_laws.specs.PeerLaws.{PeersBegin, PeerCallsGoOn, PeersKeepNumbers, PeersOpenInOrder, PeersAgree};
ghost use Rattle.krb_laws.specs.PeersHappen.{PeersHappen};
ghost use Rattle.krb_laws.specs.PeerTurn.{PeersOpenTheNext};

use krb_structs::export_laws;

/// A frame that comes back to its maker is refused by BADADDR (RFC 4120 sections 3.4.2 and 3.5.2), if
/// the maker demands another sender's address than its own.
///
/// So it is of an opener, and of the receivers on one, at any number and time (`openers`), and of
/// demands that don't ignore the sender's address, whatever else they ignore (`demands`). With demands,
/// BADADDR is the refusal of a sealed frame if and only if its addresses aren't those that are demanded,
/// or have no room (`addresses`).
pub fn reflection_laws()
    ensures openers { OpenersRefuseOwn }
    ensures demands { PeersRefuseOwn }
    ensures addresses { AddressesTell }
{}

/// What the calls of peers come to, in any order, whatever frames come, and however often; through
/// exports, from which a peer is resumed.
///
/// A new peer and one that is resumed are those of their key, session and demand at some numbers
/// (`begins`). Calls and those that go on from where they lead are calls (`goes_on`), and lead from numbers to
/// numbers (`numbers`). What is opened continues, in order
/// and each once, what the other end sealed from the first demanded number on, if none is a forgery:
/// each was sealed there, or carries the data of its number (`in_order`). Of two peers, each of which
/// demands another sender's address than its own, each opens a prefix of what the other one sealed,
/// if what they open was sealed by one of the two, no matter which, or carries the data of its number
/// (`both`). What is sealed under the demanded number opens, if its addresses and its time are what is
/// demanded (`next`). The premises can be met at once: of all data within the limits there are calls in which one
/// peer seals all, and the other one opens all (`met`).
pub fn peer_laws()
    ensures begins { PeersBegin }
    ensures goes_on { PeerCallsGoOn }
    ensures numbers { PeersKeepNumbers }
    ensures in_order { PeersOpenInOrder }
    ensures both { PeersAgree }
    ensures next { PeersOpenTheNext }
    ensures met { PeersHappen }
{
    export_laws();
}
