//! Laws of what is demanded, and of exports.

ghost use Rattle.krb_structs.specs.Laws.{DemandedIsUnsealed};
ghost use Rattle.krb_structs.specs.PeerExport.{OneExport};

use krb_seal::authentic_laws;

/// A frame opens with demands that say what an opener expects, and its number, if and only if that
/// opener unseals it at the number, and then it gives the same user data.
pub fn demand_laws()
    ensures { DemandedIsUnsealed }
{
    authentic_laws();
}

/// No bytes are the export of two pairs of numbers, so a peer goes on from those that were exported.
pub fn export_laws()
    ensures { OneExport }
{}
