//! What a receiver delivers.

ghost use Rattle.std.specs.Prelude.{◌≡◌};
ghost use Rattle.krb_record.specs.Record.{is_close};
ghost use Rattle.krb_peers.specs.Verdicts.{record_of};

use krb_base::Bytes;
use krb_record::{Record, Texts};

/// What an accepted frame carried.
#[derive(Debug, Drop)]
pub enum Delivery {
    /// A text.
    Text(Bytes),
    /// The texts of a batch, in order.
    Batch(Texts),
    /// The close: nothing more is accepted.
    Closed,
}

impl Delivery {
    /// Whether it is the close.
    pub(crate) fn is_close(&self) -> bool
        ensures { result ≡ is_close (record_of self.now) }
    {
        matches!(self, Delivery::Closed)
    }
}

impl From<Record> for Delivery {
    ghost from_gives = { λ carried delivery. carried ≡ record_of delivery };

    fn from(carried: Record) -> Delivery {
        match carried {
            Record::Text(text) => Delivery::Text(text),
            Record::Batch(texts) => Delivery::Batch(texts),
            Record::Close => Delivery::Closed,
        }
    }
}
