//! `cts_encrypt` and `cts_decrypt` of krb_aes on texts of 16,384 bytes: a line for each key size and
//! direction, in thousands of bytes a second, as `openssl speed` does. `tools/bench_aes` runs it
//! side by side with OpenSSL.

use krb_aes::{CipherKey, InverseSchedule, Schedule, cts_decrypt, cts_encrypt};
use std::io;
use std::time::{Clock, Instant};

// How many times the text goes through in one run.
const TIMES: u32 = 64;

// The round keys of a key, for both directions.
struct Schedules {
    forward: Schedule,
    backward: InverseSchedule,
}

impl Schedules {
    // The schedules of a key, which ends here.
    fn new(mut key: CipherKey) -> Schedules {
        let schedules = Schedules {
            forward: Schedule::new(&key),
            backward: InverseSchedule::new(&key),
        };
        key.wipe();
        key.spend();
        schedules
    }

    fn end(self) {
        let Schedules {
            mut forward,
            mut backward,
        } = self;
        forward.wipe();
        forward.spend();
        backward.wipe();
        backward.spend();
    }
}

fn encrypt_often(schedule: &Schedule, text: &mut [u8; 16384]) {
    for _ in 0..TIMES {
        cts_encrypt(schedule, text);
    }
}

fn decrypt_often(schedule: &InverseSchedule, text: &mut [u8; 16384]) {
    for _ in 0..TIMES {
        cts_decrypt(schedule, text);
    }
}

// The best times so far of the four kinds of run, in microseconds.
#[derive(Drop)]
struct Best {
    encrypt_128: u128,
    decrypt_128: u128,
    encrypt_256: u128,
    decrypt_256: u128,
}

impl Best {
    fn none_yet() -> Best {
        Best {
            encrypt_128: u128::MAX,
            decrypt_128: u128::MAX,
            encrypt_256: u128::MAX,
            decrypt_256: u128::MAX,
        }
    }
}

// The time that encryption takes, in microseconds.
fn encrypt_time(rt: &impl Clock, schedule: &Schedule, text: &mut [u8; 16384]) -> io::Result<u128> {
    let start = Instant::now(rt)?;
    encrypt_often(schedule, text);
    Ok(start.elapsed(rt)?.as_micros())
}

// The time that decryption takes, in microseconds.
fn decrypt_time(
    rt: &impl Clock,
    schedule: &InverseSchedule,
    text: &mut [u8; 16384],
) -> io::Result<u128> {
    let start = Instant::now(rt)?;
    decrypt_often(schedule, text);
    Ok(start.elapsed(rt)?.as_micros())
}

// The best of `rounds` runs of each kind, in turn.
fn best_of(rt: &impl Clock, narrow: &Schedules, wide: &Schedules, rounds: u32) -> io::Result<Best> {
    let mut text = [7u8; 16384];
    let mut best = Best::none_yet();
    for _ in 0..rounds {
        best.encrypt_128 = best
            .encrypt_128
            .min(encrypt_time(rt, &narrow.forward, &mut text)?);
        best.decrypt_128 = best
            .decrypt_128
            .min(decrypt_time(rt, &narrow.backward, &mut text)?);
        best.encrypt_256 = best
            .encrypt_256
            .min(encrypt_time(rt, &wide.forward, &mut text)?);
        best.decrypt_256 = best
            .decrypt_256
            .min(decrypt_time(rt, &wide.backward, &mut text)?);
    }
    Ok(best)
}

// Thousands of bytes a second, for a run of so many microseconds.
fn speed(micros: u128) -> u128 {
    let bytes = TIMES as u128 * 16384;
    bytes * 1000 / micros.max(1)
}

fn print(rt: &impl Print, best: &Best) -> io::Result<()> {
    println!(rt; "encrypt aes-128 {}", speed(best.encrypt_128))?;
    println!(rt; "decrypt aes-128 {}", speed(best.decrypt_128))?;
    println!(rt; "encrypt aes-256 {}", speed(best.encrypt_256))?;
    println!(rt; "decrypt aes-256 {}", speed(best.decrypt_256))
}

/// Prints the best speed of so many runs of each kind.
pub(crate) fn measure(rt: &(impl Clock + Print), rounds: u32) -> io::Result<bool> {
    let narrow = Schedules::new(CipherKey::from_128(*b"chicken teriyaki"));
    let wide = Schedules::new(CipherKey::from_256(*b"chicken teriyaki and wonton soup"));
    let best = best_of(rt, &narrow, &wide, rounds);
    narrow.end();
    wide.end();
    print(rt, &best?)?;
    Ok(true)
}
