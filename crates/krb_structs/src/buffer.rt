//! Buffers that C lends.

ghost use Rattle.std.specs.Prelude.{◌≡◌, ◌≤◌, ◌<◌, ◌++◌, length, take, drop, IfErr, IfOk, OnErr, OnOk};

use crate::fault::Fault;
use krb_base::Secret;

/// Writes bytes to the start of a buffer that has room for them, and leaves what follows them.
pub fn put_front(out: &mut [u8], bytes: &[u8])
    requires { length bytes.now ≤ length out.old }
    ensures { out.new ≡ bytes.now ++ drop (length bytes.now) out.old }
{
    out[..bytes.len()].copy_from_slice(bytes);
}

/// Writes bytes to the start of a buffer, and answers how many they are. What follows them stays,
/// and so does the whole buffer if it has no room for them.
pub fn put_within(out: &mut [u8], bytes: &[u8]) -> Result<usize, Fault>
    ensures written { IfOk result (λ size. take size out.new ≡ bytes.now) }
    ensures size { IfOk result (λ size. size ≤ length out.new) }
    ensures rest { IfOk result (λ size. drop size out.new ≡ drop size out.old) }
    ensures kept { OnErr result (out.new ≡ out.old) }
    ensures fits { OnOk result (length bytes.now ≤ length out.old) }
    ensures room { IfErr result (λ f. (f ≡ Fault.Room) × (length out.old < length bytes.now)) }
{
    if out.len() < bytes.len() {
        return Err(Fault::Room);
    }
    put_front(out, bytes);
    Ok(bytes.len())
}

/// The same of user data.
pub fn put_user_data(out: &mut [u8], user_data: &Secret) -> Result<usize, Fault>
    ensures written { IfOk result (λ size. take size out.new ≡ user_data.now) }
    ensures size { IfOk result (λ size. size ≤ length out.new) }
    ensures rest { IfOk result (λ size. drop size out.new ≡ drop size out.old) }
    ensures kept { OnErr result (out.new ≡ out.old) }
    ensures fits { OnOk result (length user_data.now ≤ length out.old) }
    ensures room { IfErr result (λ f. (f ≡ Fault.Room) × (length out.old < length user_data.now)) }
{
    put_within(out, user_data.as_slice())
}
