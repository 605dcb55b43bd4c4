//! The bytes of a peer's export.

ghost use Rattle.std.specs.Prelude.{◌≡◌, ◌≤◌, ◌+◌, ℕ, drop, length, take, IfSome, None};
ghost use Rattle.std.specs.Int.{w64, from_be_bytes};
ghost use Rattle.krb_structs.specs.PeerExport.{Exports, export_of};

use krb_base::LAST_NUMBER;

/// How many bytes the export of a peer has.
pub const EXPORT_SIZE: usize = 20;

/// What an export begins with: the letters "krs", and the number of its form.
const EXPORT_FORM: [u8; 4] = [0x6b, 0x72, 0x73, 0x01];

/// The export of the number that is sealed next and of the one that is expected.
pub fn export_of(next: u64, expected: u64) -> [u8; EXPORT_SIZE]
    ensures { result ≡ export_of next expected }
{
    let mut state = [0u8; EXPORT_SIZE];
    state[..4].copy_from_slice(&EXPORT_FORM);
    state[4..12].copy_from_slice(&next.to_be_bytes());
    state[12..].copy_from_slice(&expected.to_be_bytes());
    state
}

/// The number whose 8 octets are at this place.
fn number_at(state: &[u8], at: usize) -> u64
    requires { at + 8 ≤ length state.now }
    ensures { result ≡ from_be_bytes w64 (take 8 (drop at state.now)) }
{
    let mut octets = [0u8; 8];
    octets.copy_from_slice(&state[at..at + 8]);
    u64::from_be_bytes(octets)
}

/// The number that is sealed next and the one that is expected, if the bytes are an export.
pub fn exported(state: &[u8; EXPORT_SIZE]) -> Option<(u64, u64)>
    ensures some { IfSome result (λ numbers. Exports state.now numbers.0 numbers.1) }
    ensures none { result ≡ None
        → (next expected : ℕ) → ¬ (Exports state.now next expected) }
{
    let next = number_at(state, 4);
    let expected = number_at(state, 12);
    if next > LAST_NUMBER + 1 || expected > LAST_NUMBER + 1 {
        return None;
    }
    if export_of(next, expected).as_slice() != state.as_slice() {
        return None;
    }
    Some((next, expected))
}
