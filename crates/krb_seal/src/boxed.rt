//! A sealer in a box.

use crate::seal_error::SealError;
use crate::sealer::Sealer;
use krb_der::Moment;
use std::alloc::Global;

/// Each call goes to the sealer in the box.
impl Sealer for Box<dyn Sealer + Send> {
    ghost state = { λ b. (Sealer-box b).state b.value };

    fn etype(&self) -> i32 {
        (**self).etype()
    }

    fn next(&self) -> u64 {
        (**self).next()
    }

    fn seal(
        &mut self,
        alloc: Global,
        bytes: &[u8],
        at: Moment,
        confounder: [u8; 16],
    ) -> Result<Vec<u8>, SealError> {
        (**self).seal(alloc, bytes, at, confounder)
    }

    fn wipe(&mut self) {
        (**self).wipe();
    }
}
