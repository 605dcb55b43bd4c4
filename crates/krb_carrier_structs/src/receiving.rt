//! A session's end at a receiver, as C writes it.

ghost use Rattle.std.specs.Prelude.{◌≡◌, ◌↔◌, IfSome, IsSome};
ghost use Rattle.krb_carrier_structs.specs.Receiving.{IsReceiving, TellsReceiving, row_told, told_receiving, told_row, told_seen};

use crate::numbers::{asks_of, number_of_owed};
use crate::pause::KrbPause;
use krb_carry::{HISTORY_SIZE, Receipt};
use krb_engine::{Receiving, Row, Seen};

/// What a store has of a session.
#[repr(C)]
#[derive(Clone, Copy)]
pub struct KrbRow {
    /// The number that is demanded.
    pub number: u64,
    /// The digest of all that took effect below it.
    pub history: [u8; HISTORY_SIZE],
    /// Not 0: the close took effect.
    pub closed: u32,
}

/// One session's end at a receiver.
#[repr(C)]
#[derive(Clone, Copy)]
pub struct KrbReceiving {
    /// What is stored.
    pub stored: KrbRow,
    /// What will be, once the transaction under way took effect.
    pub drafted: KrbRow,
    /// Since the last receipt.
    pub paid: KrbPause,
    /// Not 0: frames were taken for a transaction that is under way.
    pub is_open: u32,
    /// What the receipt asks for that is owed (1 to 3), or 0.
    pub owed: u32,
}

/// What is known of a frame under the session's name.
#[repr(C)]
#[derive(Clone, Copy)]
pub struct KrbSeen {
    /// If it wasn't accepted: the number at which it opens if nothing is demanded of it.
    pub opened: u64,
    /// Not 0: it opens under that number.
    pub has_opened: u32,
    /// Not 0: it opens at the demanded number, and passes each check.
    pub accepted: u32,
    /// Not 0: it is the close.
    pub is_close: u32,
    /// 0.
    pub reserved: u32,
}

impl KrbRow {
    /// The struct of a row.
    pub fn of(row: Row) -> KrbRow
        ensures { result ≡ row_told row }
    {
        let history = row.demanded.history;
        KrbRow {
            number: row.demanded.number,
            history,
            closed: u32::from(row.closed),
        }
    }

    /// The row that it tells.
    pub fn row(&self) -> Row
        ensures { result ≡ told_row self.now }
    {
        Row {
            demanded: Receipt {
                number: self.number,
                history: self.history,
            },
            closed: self.closed != 0,
        }
    }
}

impl KrbReceiving {
    /// The struct of an end.
    pub fn of(receiving: Receiving) -> KrbReceiving
        ensures { TellsReceiving result receiving }
    {
        KrbReceiving {
            stored: KrbRow::of(receiving.stored),
            drafted: KrbRow::of(receiving.drafted),
            paid: KrbPause::of(receiving.paid),
            is_open: u32::from(receiving.is_open),
            owed: number_of_owed(receiving.owed),
        }
    }

    /// The end that it tells, if it tells one.
    pub fn receiving(&self) -> Option<Receiving>
        ensures variant { IsSome result ↔ IsReceiving self.now }
        ensures value { IfSome result (λ receiving. receiving ≡ told_receiving self.now) }
    {
        if self.owed > 3 {
            return None;
        }
        Some(Receiving {
            stored: self.stored.row(),
            drafted: self.drafted.row(),
            is_open: self.is_open != 0,
            owed: asks_of(self.owed),
            paid: self.paid.pause(),
        })
    }
}

impl KrbSeen {
    /// What it tells.
    pub fn seen(&self) -> Seen
        ensures { result ≡ told_seen self.now }
    {
        Seen {
            accepted: self.accepted != 0,
            is_close: self.is_close != 0,
            opened: if self.has_opened != 0 {
                Some(self.opened)
            } else {
                None
            },
        }
    }
}
