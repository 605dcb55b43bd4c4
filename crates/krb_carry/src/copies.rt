//! What is claimed of an outbox that is restored and copied, over the definitions alone.

ghost use Rattle.krb_carry.specs.CopiesLaws.{OneFinding, OneDigestIsEnough, ReceiptsStayTrue};
ghost use Rattle.krb_carry.specs.CopiesLaws.{DeliveredTookEffect, TextsTookEffect, OthersAreStopped, NothingFromThereOn};
ghost use Rattle.krb_carry.specs.CopiesLaws.{EachIsAnOutbox, OneSessionTakesEffect, NoNumberIsUsedAgain, ForksHappen, ForkExists};

use crate::histories_laws;

/// What holds however often an outbox is restored or copied.
///
/// Each copy goes on by itself: an application puts in texts, and processes seal them under the copy's
/// next number. At any time a copy may become a state that a copy was in (a file is restored), and
/// another copy of such a state may be used beside them (on a second machine). Whatever they sealed may
/// take effect whenever the carrier brings it, in the order of the numbers, each number once and nothing
/// after a close. A true receipt may come to any copy, late, or more than once: it stays true
/// (`receipts`). A copy compares it with its own frames, as [`compare_receipt`](crate::compare_receipt)
/// does, and needs to keep none that it took for delivered (`digest`). It is one of four things
/// (`findings`): nothing new, or the copy takes texts for delivered, or it is stopped as an older one or as
/// a fork. A copy that is stopped seals nothing more. It is assumed that no forgery takes effect, that
/// receipts are true, and that the store isn't restored.
///
/// Then of all that any copy takes for delivered its own frames took effect: those of each number have
/// one tag (`delivered`), and so one text (`texts`). A receipt for frames that a copy hasn't sealed, or
/// has sealed otherwise, stops it (`stopped`). Where another copy's frame took effect under a number, a
/// copy takes nothing from that number on for delivered (`forked`). This holds unless two texts with one
/// SHA-1 are found, or two frames of one number that differ and have one tag. It says something: a text
/// is taken for delivered, and a copy and a restored outbox are stopped, whatever two texts they seal
/// (`happen`), and there are two frames of which this holds, under any key (`example`).
///
/// Each copy is an outbox of which [`outbox_laws`](crate::outbox_laws) speak (`outboxes`). What takes
/// effect is sealed of the records of one session, so what [`store_laws`](crate::store_laws) claim of
/// a store holds with these records (`session`).
///
/// Without receipts a sender that begins asks the carrier for all frames of the session. It goes on if it
/// seals above the highest number of these; if it doesn't, or the carrier can't be asked, it is stopped
/// (`After`). Whatever it does then, it seals none of their numbers (`begun`). Frames that the carrier has
/// lost, and those of a copy that is used at the same time, only a receipt shows. Where a sender begins so
/// after each restore of the one outbox, [`outbox_tables_laws`](krb_laws::outbox_tables_laws) say that no
/// number leaves for two records.
pub fn copies_laws()
    ensures findings { OneFinding }
    ensures digest { OneDigestIsEnough }
    ensures receipts { ReceiptsStayTrue }
    ensures delivered { DeliveredTookEffect }
    ensures texts { TextsTookEffect }
    ensures stopped { OthersAreStopped }
    ensures forked { NothingFromThereOn }
    ensures outboxes { EachIsAnOutbox }
    ensures session { OneSessionTakesEffect }
    ensures begun { NoNumberIsUsedAgain }
    ensures happen { ForksHappen }
    ensures example { ForkExists }
{
    histories_laws();
}
