//! Laws of a relay that stops.

ghost use Rattle.krb_relay.specs.Laws.{AllBelowTheNamed, BadPlanIsTrue, NothingOfTheNamed, WipedIsTrue};

/// What a fault of [`relay`](crate::relay) says of the lanes where it names a bad plan or a wiped sealer. It does nothing
/// when it runs.
///
/// The plan of the named lane is bad (`plan`), or its sealer was wiped (`wiped`), and nothing was taken of it (`nothing`).
/// Of each lane below it all was taken that its wire carries (`below`).
pub fn stop_laws()
    ensures plan { BadPlanIsTrue }
    ensures wiped { WipedIsTrue }
    ensures nothing { NothingOfTheNamed }
    ensures below { AllBelowTheNamed }
{}
