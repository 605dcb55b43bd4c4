//! Sealers of a session's texts.

ghost use Rattle.std.specs.Prelude.{◌≡◌, ◌≤◌, ◌<◌, ◌↔◌, true, false, length, IfOk, OnOk, OnErr};
ghost use Rattle.krb_base.specs.Limits.{user_data_limit};
ghost use Rattle.krb_seal.specs.Sealer.{SealerState, SealsNext, advanced, end_of_numbers, wiped_state};

use crate::seal_error::SealError;
use krb_der::Moment;
use std::alloc::Global;

/// Seals data as messages with rising sequence numbers, each under the same key and for the same
/// session. Dropping it overwrites its keys.
pub trait Sealer: Drop {
    /// What contracts see of a sealer: its encryption type, key and session, the next sequence
    /// number, and whether it was wiped.
    ghost state: { Self → SealerState };

    /// The number of the encryption type: 17 or 18 (RFC 3962 section 7).
    fn etype(&self) -> i32
        ensures { result ≡ (state self.now).etype };

    /// The next sequence number: at most one over the last, which no message has.
    fn next(&self) -> u64
        ensures value { result ≡ (state self.now).next }
        ensures in_range { (state self.now).next ≤ end_of_numbers };

    /// The message that carries `bytes` at the next sequence number and the timestamp `at`.
    /// KRB-PRIV is encrypted under the confounder, KRB-SAFE doesn't use it.
    ///
    /// The errors are checked in their order, and each leaves the sealer unchanged.
    fn seal(
        &mut self,
        alloc: Global,
        bytes: &[u8],
        at: Moment,
        confounder: [u8; 16],
    ) -> Result<Vec<u8>, SealError>
        ensures sealed { IfOk result (λ frame.
            SealsNext (state self.old) bytes.now at confounder frame.items) }
        ensures advanced { OnOk result (state self.new ≡ advanced (state self.old)) }

        ensures wiped { (result ≡ Err SealError.Wiped) ↔ ((state self.old).wiped ≡ true) }
        ensures too_long { (result ≡ Err SealError.TooLong)
            ↔ (((state self.old).wiped ≡ false) × (user_data_limit < length bytes.now)) }
        ensures exhausted { (result ≡ Err SealError.Exhausted)
            ↔ (((state self.old).wiped ≡ false) × (length bytes.now ≤ user_data_limit)
            × ((state self.old).next ≡ end_of_numbers)) }
        ensures unchanged { OnErr result (state self.new ≡ state self.old) };

    /// Overwrites all keys. After that nothing is sealed.
    fn wipe(&mut self)
        ensures { state self.new ≡ wiped_state (state self.old) };
}
