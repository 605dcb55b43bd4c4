//! A pause, as C writes it.

ghost use Rattle.std.specs.Prelude.{◌≡◌};
ghost use Rattle.krb_carrier_structs.specs.Pause.{pause_told, told_pause};

use krb_engine::Pause;

/// A pause, in milliseconds of a clock that is never set.
#[repr(C)]
#[derive(Clone, Copy)]
pub struct KrbPause {
    /// When it began.
    pub since: u64,
    /// How long it is.
    pub length: u64,
}

impl KrbPause {
    /// The struct of a pause.
    pub fn of(pause: Pause) -> KrbPause
        ensures { result ≡ pause_told pause }
    {
        KrbPause {
            since: pause.since,
            length: pause.length,
        }
    }

    /// The pause that it tells.
    pub fn pause(&self) -> Pause
        ensures { result ≡ told_pause self.now }
    {
        Pause {
            since: self.since,
            length: self.length,
        }
    }
}
