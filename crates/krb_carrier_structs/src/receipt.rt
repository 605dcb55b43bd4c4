//! A receipt, as C writes it.

ghost use Rattle.std.specs.Prelude.{◌≡◌, None};
ghost use Rattle.krb_carrier_structs.specs.Receipt.{told_receipt};

use crate::numbers::{asks_of, number_of_owed};
use krb_carry::{HISTORY_SIZE, Receipt};
use krb_engine::Asks;

/// What a receiver says of a session, and asks for: zeros are no receipt.
#[repr(C)]
#[derive(Clone, Copy)]
pub struct KrbReceipt {
    /// All frames below this number took effect.
    pub number: u64,
    /// Their digest, from the session's first frame on.
    pub history: [u8; HISTORY_SIZE],
    /// Nothing (1), the frame of that number, which is missing (2) or was refused (3). 0: there is no
    /// receipt.
    pub asks: u32,
}

impl KrbReceipt {
    /// The receipt that it tells, with what that asks for, if it tells one.
    pub fn receipt(&self) -> Option<(Receipt, Asks)>
        ensures { result ≡ told_receipt self.now }
    {
        let asks = asks_of(self.asks)?;
        Some((
            Receipt {
                number: self.number,
                history: self.history,
            },
            asks,
        ))
    }
}

/// The struct of a receipt, or of none.
pub fn receipt_told(receipt: Option<(Receipt, Asks)>) -> KrbReceipt
    ensures value { told_receipt result ≡ receipt }
    ensures none { receipt ≡ None → result.asks ≡ 0 }
{
    match receipt {
        Some((receipt, asks)) => {
            let history = receipt.history;
            KrbReceipt {
                number: receipt.number,
                history,
                asks: number_of_owed(Some(asks)),
            }
        }
        None => KrbReceipt {
            number: 0,
            history: [0; HISTORY_SIZE],
            asks: 0,
        },
    }
}
