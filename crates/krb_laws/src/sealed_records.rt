//! Sealed records exist.

ghost use Rattle.krb_laws.specs.SealedRecords.{OneFrameOfEachRecord, RecordsAreSealed, RecordsCanBeTaken};

/// The records of a session can be sealed, so what laws ask of sealed records can be met.
///
/// Of each record within its limits there is exactly one frame of either kind of message at each
/// number, timestamp and confounder (`each`), by [`exists_laws`](krb_seal::exists_laws). All records of
/// a session that are within their limits, with numbers left, can be sealed (`sealed`), and a new receiver
/// can take them all (`taken`). So the premises of `met` of [`attempt_laws`](krb_peers::attempt_laws), and
/// of `met` and `happens` of the laws of stores, places and deliveries, are met.
pub fn sealed_records_laws()
    ensures each { OneFrameOfEachRecord }
    ensures sealed { RecordsAreSealed }
    ensures taken { RecordsCanBeTaken }
{}
