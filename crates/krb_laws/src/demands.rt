//! What demands mean.

ghost use Rattle.krb_laws.specs.Demands.{DemandsMean, OpensAtItsNumberAlone};

/// Demands say what the fields of a message that opens are (RFC 4120 sections 3.4.2 and 3.5.2).
///
/// A frame opens with demands if and only if it is authentic, and each of its fields is what is demanded of
/// it: any where the field is ignored, the demanded one where the message tells it, and the message tells it
/// where that is required (`fields`). Whatever else is demanded or ignored, a sealed frame opens with a demand of a number under
/// its own number alone, and gives what was sealed (`own_number`).
pub fn demand_fields_laws()
    ensures fields { DemandsMean }
    ensures own_number { OpensAtItsNumberAlone }
{}
