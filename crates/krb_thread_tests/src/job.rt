//! What a caller of krb_job sees that no output of the program shows.

use crate::program_asserts::assert_same_at;
use krb_job::{Command, JobError, read_job};
use std::alloc::Global;
use std::test::Fail;

/// Why the document is no job.
fn error_of(alloc: Global, text: &str, command: Command) -> Option<JobError> {
    read_job(alloc, text.as_bytes(), command).err()
}

/// A sender of no command: what `open` needs besides, and what the others do.
const SENDER: &str = "[[sender]]
etype = 17
key = '000102030405060708090a0b0c0d0e0f'
mode = 'safe'
first = 7
from = '2:c0000201'
to = '2:c0000202'
skew = 300
now = [0, 253402300799999999]
";

const OPENED: &str = "frames = ['74']\n";

const SENT: &str = "seed = '000102030405060708090a0b0c0d0e0f101112131415161718191a1b1c1d1e1f'
at = [1000000]
texts = ['6869', '']
";

/// A sender has the batch that its job tells, and 1 where the job tells none, for `open` too.
#[test]
fn batch_of_a_sender(rt: HostRuntime) -> Result<(), Fail> {
    for (command, line, batch) in [
        (Command::Seal, "batch = 2", 2),
        (Command::Relay, "batch = 1000", 1000),
        (Command::Seal, "", 1),
        (Command::Relay, "", 1),
        (Command::Open, "", 1),
    ] {
        let keys = if matches!(command, Command::Open) {
            OPENED
        } else {
            SENT
        };
        let text = format!(in rt.alloc(); "{SENDER}{keys}{line}")?;
        let job = read_job(rt.alloc(), text.as_bytes(), command)?;
        assert_same_at(&rt, job.senders[0].batch, batch, line);
        let error = error_of(rt.alloc(), text.as_str(), command);
        assert_same_at(&rt, error, None, line);
    }
    Ok(())
}
