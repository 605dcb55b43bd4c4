//! What C calls to learn which field of a struct is wrong.

ghost use Rattle.std.specs.Prelude.{◌≡◌, ◌↔◌};
ghost use Rattle.krb_structs.specs.Demand.{IsDemand};
ghost use Rattle.krb_structs.specs.Peer.{IsPeerDemand};
ghost use Rattle.krb_calls.specs.Session.{ExpectField, IsWholeExpect, IsWholeSession, SessionField};
ghost use Rattle.krb_calls.specs.Demand.{DemandField, PeerDemandField};
ghost use Rattle.krb_c.specs.Fields.{Tells};

use krb_calls::{demand_field, expect_field, field_number, peer_demand_field, session_field};
use krb_structs::{KrbDemand, KrbExpect, KrbSession};

/// Answers the first field of a session by which a sealer or a peer refuses it, and 0 if none is.
#[unsafe(no_mangle)]
pub extern "C" fn krbrelay_check_session(session: &KrbSession) -> u32
    ensures field { Tells (SessionField session.now) result }
    ensures none { (result ≡ 0) ↔ IsWholeSession session.now }
{
    field_number(session_field(session))
}

/// Answers the first field of an expectation by which an opener or a receiver refuses it, and 0 if none
/// is.
#[unsafe(no_mangle)]
pub extern "C" fn krbrelay_check_expect(expect: &KrbExpect) -> u32
    ensures field { Tells (ExpectField expect.now) result }
    ensures none { (result ≡ 0) ↔ IsWholeExpect expect.now }
{
    field_number(expect_field(expect))
}

/// Answers the first field of a demand by which an opener refuses it, and 0 if none is.
#[unsafe(no_mangle)]
pub extern "C" fn krbrelay_check_demand(demand: &KrbDemand) -> u32
    ensures field { Tells (DemandField demand.now) result }
    ensures none { (result ≡ 0) ↔ IsDemand demand.now }
{
    field_number(demand_field(demand))
}

/// Answers the first field of a demand by which a peer refuses it, and 0 if none is.
#[unsafe(no_mangle)]
pub extern "C" fn krbrelay_check_peer_demand(demand: &KrbDemand) -> u32
    ensures field { Tells (PeerDemandField demand.now) result }
    ensures none { (result ≡ 0) ↔ IsPeerDemand demand.now }
{
    field_number(peer_demand_field(demand))
}
