//! What a sender is to do, as C reads it.

ghost use Rattle.std.specs.Prelude.{◌≡◌};
ghost use Rattle.krb_carrier_structs.specs.Command.{command_told};

use krb_engine::Command;

/// What is to be done for one session.
#[repr(C)]
#[derive(Clone, Copy)]
pub struct KrbCommand {
    /// The first frame that leaves (1), or the one that leaves again (2); else 0.
    pub number: u64,
    /// How many frames leave, in order (1); else 0.
    pub count: u64,
    /// Nothing is to be done before this time (3); else 0.
    pub at: u64,
    /// Nothing (0), publish (1), probe (2) or wake (3).
    pub kind: u32,
    /// 1: the session's opening leaves before the frame (2); else 0.
    pub opening: u32,
}

impl KrbCommand {
    /// The struct of a command.
    pub fn of(command: Command) -> KrbCommand
        ensures { result ≡ command_told command }
    {
        let nothing = KrbCommand {
            number: 0,
            count: 0,
            at: 0,
            kind: 0,
            opening: 0,
        };
        match command {
            Command::Publish { from, count } => KrbCommand {
                number: from,
                count,
                kind: 1,
                ..nothing
            },
            Command::Probe { number, opening } => KrbCommand {
                number,
                kind: 2,
                opening: u32::from(opening),
                ..nothing
            },
            Command::Wake { at } => KrbCommand {
                at,
                kind: 3,
                ..nothing
            },
            Command::Idle => nothing,
        }
    }
}
