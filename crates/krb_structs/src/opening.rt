//! Openers used, in Rattle's types.

ghost use Rattle.std.specs.Prelude.{◌≡◌, ◌≤◌, ℕ, drop, length, take, IfErr, IfOk, OnErr, OnOk, Ok, Some};
ghost use Rattle.krb_structs.specs.Opening.{GivesTo, MisordersTo, OpensTo};
ghost use Rattle.krb_structs.specs.Fault.{answer_of, fault_code};
ghost use Rattle.krb_structs.specs.Moment.{IsTimed, micros_of};
ghost use Rattle.krb_structs.specs.Reasons.{DemandAnswer, OpenAnswer};
ghost use Rattle.krb_structs.specs.Unseals.{UnsealsInto};

use crate::buffer::put_user_data;
use crate::carried::{KrbCarried, carried};
use crate::demand::{KrbDemand, is_demand, open_body};
use crate::fault::Fault;
use crate::moment::KrbMoment;
use crate::wipeable_opener::WipeableOpener;
use krb_base::Secret;
use krb_der::Body;
use std::alloc::Global;

/// The user data of a frame, unless the opener was wiped. Their block is overwritten before it is
/// freed.
fn unsealed(
    alloc: Global,
    opener: &WipeableOpener,
    frame: &[u8],
    number: u64,
    at: &KrbMoment,
) -> Result<Secret, Fault>
    ensures opened { IfOk result (λ user. OpensTo (Some opener.now) number (micros_of at.now)
        frame.now (Ok user)) }
    ensures ready { OnOk result (IsTimed at.now) }
    // Whatever room a buffer has.
    ensures fails { (room : ℕ) → IfErr result (λ f.
        OpenAnswer (Some opener.now) number at.now frame.now room (fault_code f)) }
{
    let opener = opener.live()?;
    let now = at.moment()?;
    match opener.unseal_telling(alloc, frame, number, now) {
        Ok(user_data) => Ok(Secret::from(user_data)),
        Err(unopened) => Err(Fault::Refused(unopened.refusal)),
    }
}

/// Opens into a buffer, unless the opener was wiped, and answers the size of the user data. What is
/// after them stays, and so does the whole buffer if nothing is opened.
pub fn unseal_into(
    alloc: Global,
    opener: &WipeableOpener,
    frame: &[u8],
    number: u64,
    at: &KrbMoment,
    out: &mut [u8],
) -> Result<usize, Fault>
    ensures { UnsealsInto (Some opener.now) number at.now frame.now out.old out.new result }
{
    let user_data = unsealed(alloc, opener, frame, number, at)?;
    put_user_data(out, &user_data)
}

/// Opens a frame into its own bytes, unless the opener was wiped, and answers the size of the user
/// data. What is after them stays, and the frame as a whole where it isn't opened.
pub fn unseal_in_place(
    alloc: Global,
    opener: &WipeableOpener,
    frame: &mut [u8],
    number: u64,
    at: &KrbMoment,
) -> Result<usize, Fault>
    ensures { UnsealsInto (Some opener.now) number at.now frame.old frame.old frame.new result }
{
    let user_data = unsealed(alloc, opener, frame, number, at)?;
    put_user_data(frame, &user_data)
}

/// Opens with demands of the caller's into a buffer, unless the opener was wiped, tells what else
/// the message carried, and answers the size of the user data. What is after them stays, and all
/// where nothing is opened.
pub fn open_into(
    alloc: Global,
    opener: &WipeableOpener,
    frame: &[u8],
    demand: &KrbDemand,
    at: &KrbMoment,
    out: &mut [u8],
    told: &mut KrbCarried,
) -> Result<usize, Fault>
    ensures opened { IfOk result (λ size. GivesTo (Some opener.now) demand.now (micros_of at.now)
        frame.now (take size out.new) told.new) }
    ensures size { IfOk result (λ size. size ≤ length out.new) }
    ensures rest { IfOk result (λ size. drop size out.new ≡ drop size out.old) }
    ensures kept { OnErr result (out.new ≡ out.old) }
    ensures untold { OnErr result (told.new ≡ told.old) }
    ensures answer { DemandAnswer (Some opener.now) demand.now at.now frame.now (length out.old)
        (answer_of result) }
{
    let mut read = *told;
    let size = open_telling(alloc, opener, frame, demand, at, out, &mut read)?;
    *told = read;
    Ok(size)
}

/// The same, which tells what the message carried also where the number alone is refused, with
/// BADORDER.
pub fn open_telling(
    alloc: Global,
    opener: &WipeableOpener,
    frame: &[u8],
    demand: &KrbDemand,
    at: &KrbMoment,
    out: &mut [u8],
    told: &mut KrbCarried,
) -> Result<usize, Fault>
    ensures opened { IfOk result (λ size. GivesTo (Some opener.now) demand.now (micros_of at.now)
        frame.now (take size out.new) told.new) }
    ensures size { IfOk result (λ size. size ≤ length out.new) }
    ensures rest { IfOk result (λ size. drop size out.new ≡ drop size out.old) }
    ensures kept { OnErr result (out.new ≡ out.old) }
    ensures misordered { answer_of result ≡ 42 → MisordersTo (Some opener.now) demand.now
        (micros_of at.now) frame.now told.new }
    ensures untold { ¬ (answer_of result ≡ 0) → ¬ (answer_of result ≡ 42) → told.new ≡ told.old }
    ensures answer { DemandAnswer (Some opener.now) demand.now at.now frame.now (length out.old)
        (answer_of result) }
{
    let opener = opener.live()?;
    if !is_demand(demand) {
        return Err(Fault::Argument);
    }
    let moment = at.moment()?;
    let now = moment.micros();
    let body = open_body(alloc, opener, frame, demand, now, told)?;
    let carried = carried(&body);
    let Body { user_data, .. } = body;
    let user_data = Secret::from(user_data);
    let size = put_user_data(out, &user_data)?;
    *told = carried;
    Ok(size)
}
