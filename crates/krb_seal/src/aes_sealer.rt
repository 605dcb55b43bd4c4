//! The sealers.

ghost use Rattle.std.specs.Prelude.{◌≡◌, ◌≤◌, ◌+◌, ◌↔◌, replicate, pos, IfSome, IsSome, false};
ghost use Rattle.std.specs.Borrow.{sem};
ghost use Rattle.std.specs.Io.BufRead.{Rests};
ghost use Rattle.krb_base.specs.Limits.{user_data_limit};
ghost use Rattle.krb_etype.specs.CodeKey.{code_key};
ghost use Rattle.krb_etype.specs.Etype.{number_of};
ghost use Rattle.krb_keys.specs.BatchMac.{HoldsBatchKey};
ghost use Rattle.krb_seal.specs.Mode.{purpose_of};
ghost use Rattle.krb_seal.specs.Session.{HasShortAddresses};
ghost use Rattle.krb_seal.specs.Sealer.{HasFrameSize, end_of_numbers, in_mode, new_state};
ghost use Rattle.krb_seal.specs.Lent.{advanced_by, keys_of};

use crate::frame::{frame_of, frame_size};
use crate::seal_error::SealError;
use crate::sealer::Sealer;
use crate::session::{Mode, Session};
use krb_base::{LAST_NUMBER, USER_DATA_LIMIT};
use krb_der::{BodyRef, Moment};
use krb_etype::{End, Etype, Keys, SessionKey};
use krb_keys::BatchMac;
use std::alloc::Global;
use std::marker::{Model, PhantomData};

/// The mark of encryption type 17.
#[derive(Clone, Copy)]
pub struct Aes128;

/// The mark of encryption type 18.
#[derive(Clone, Copy)]
pub struct Aes256;

/// The mark of the encryption type of the session key.
#[derive(Clone, Copy)]
pub struct Any;

/// A sealer of the encryption type that `E` marks. Dropping it overwrites all its keys.
pub struct AesSealer<E> {
    etype: Etype,
    keys: Keys,
    session: Session,
    next: u64,
    mark: PhantomData<E>,
}

/// A sealer of encryption type 17, aes128-cts-hmac-sha1-96.
pub type Aes128Sealer = AesSealer<Aes128>;

/// A sealer of encryption type 18, aes256-cts-hmac-sha1-96.
pub type Aes256Sealer = AesSealer<Aes256>;

/// A sealer of the encryption type that its session key has.
pub type SessionSealer = AesSealer<Any>;

/// What a sealer seals with, lent to what seals several messages in one call.
#[derive(Drop)]
pub struct SealerParts<'a> {
    /// The encryption type.
    pub etype: Etype,
    /// The keys.
    pub keys: &'a Keys,
    /// What each message carries.
    pub session: &'a Session,
}

impl<E> Model for AesSealer<E> {
    ghost use Rattle.krb_seal.specs.Sealer.{SealerState};

    ghost Value = { SealerState };

    ghost use Rattle.krb_seal.specs.AesSealerInside.{state_of, IsReady};

    ghost view = { λ a. state_of a.etype a.keys a.session a.next };

    ghost invariant = { λ a. IsReady a.keys a.session a.next };
}

impl<E> AesSealer<E> {
    /// A sealer that has sealed nothing. It takes the key.
    fn of_key(key: SessionKey, session: Session) -> AesSealer<E>
        requires { HasShortAddresses session }
        ensures { result ≡ new_state (number_of key.etype) key.bytes session }
    {
        let (etype, held) = key.into_parts();
        AesSealer {
            etype,
            keys: Keys::new(held, End::Sealer, session.mode.purpose()),
            next: u64::from(session.first),
            session,
            mark: PhantomData,
        }
    }
}

impl AesSealer<Aes128> {
    /// Takes the key: the caller's bytes are zero afterwards. The addresses of the session have at
    /// most 40 bytes each.
    pub fn new(key: &mut [u8; 16], session: Session) -> AesSealer<Aes128>
        requires { HasShortAddresses session }
        ensures made { result ≡ new_state (pos 17) key.old session }
        ensures taken { key.new ≡ replicate 16 0 }
    {
        AesSealer::of_key(SessionKey::new_128(key), session)
    }
}

impl AesSealer<Aes256> {
    /// Takes the key: the caller's bytes are zero afterwards. The addresses of the session have at
    /// most 40 bytes each.
    pub fn new(key: &mut [u8; 32], session: Session) -> AesSealer<Aes256>
        requires { HasShortAddresses session }
        ensures made { result ≡ new_state (pos 18) key.old session }
        ensures taken { key.new ≡ replicate 32 0 }
    {
        AesSealer::of_key(SessionKey::new_256(key), session)
    }
}

impl AesSealer<Any> {
    /// Takes the session key. The addresses of the session have at most 40 bytes each.
    pub fn new(key: SessionKey, session: Session) -> AesSealer<Any>
        requires { HasShortAddresses session }
        ensures { result ≡ new_state (number_of key.etype) key.bytes session }
    {
        AesSealer::of_key(key, session)
    }
}

impl<E> AesSealer<E> {
    ghost use Rattle.krb_seal.specs.contracts.aes_sealer.AesSealer.{the_row};

    /// Whether its keys were overwritten.
    pub fn is_wiped(&self) -> bool
        ensures { result ≡ self.now.wiped }
    {
        self.keys.is_wiped()
    }

    /// Seals in this mode from now on. The keys of the mode are derived, unless they are there. Key,
    /// number and addresses stay: both kinds of messages of one sender share its sequence numbers
    /// (RFC 4120 section 3.4.1).
    pub fn set_mode(&mut self, mode: Mode)
        ensures { self.new ≡ in_mode self.old mode }
    {
        self.session.mode = mode;
        self.keys.set_purpose(mode.purpose());
    }

    /// The size of the next frame with so many bytes of user data at a moment: exactly that of what
    /// [`Sealer::seal`] then gives. Once all numbers are used there is no such frame, and it is the
    /// size of the last.
    pub fn frame_size(&self, len: usize, at: Moment) -> usize
        requires { len ≤ user_data_limit }
        ensures { HasFrameSize self.now len at result }
    {
        let session = &self.session;
        let number = self.next.min(LAST_NUMBER) as u32;
        let body = BodyRef::new(&[], at, number, &session.s_addr, &session.r_addr);
        frame_size(self.etype, session.mode, body, len)
    }

    /// Makes the key of its codes ready for eight messages at a time, for what seals several with its
    /// [`AesSealer::parts`], and gives it. What seals one at a time doesn't need it. A wiped sealer has none.
    pub fn prepare_batch(&mut self) -> Option<&BatchMac>
        ensures there { IsSome result ↔ self.old.wiped ≡ false }
        ensures key { IfSome result (λ mac.
            HoldsBatchKey mac.now (code_key (purpose_of self.old.session.mode) self.old.key)) }
        ensures* same { sem 𝓛 (Rests (the_row E.row) self.entry (λ new. new ≡ self.old)) }
    {
        self.keys.prepare_batch()
    }

    /// What it seals with.
    pub fn parts(&self) -> SealerParts<'_>
        ensures etype { number_of result.etype ≡ self.now.etype }
        ensures keys { result.keys.now ≡ keys_of self.now }
        ensures session { result.session.now ≡ self.now.session }
        ensures addresses { HasShortAddresses self.now.session }
    {
        SealerParts {
            etype: self.etype,
            keys: &self.keys,
            session: &self.session,
        }
    }

    /// Passes over the numbers at which so many frames were sealed with its [`AesSealer::parts`].
    pub fn pass(&mut self, count: u64)
        requires { self.old.next + count ≤ end_of_numbers }
        ensures { self.new ≡ advanced_by self.old count }
    {
        self.next += count;
    }
}

impl<E> Drop for AesSealer<E> {
    fn drop(self) {
        let AesSealer {
            etype: _,
            keys,
            session: _,
            next: _,
            mark: _,
        } = self;
        keys.spend();
    }
}

impl<E> Sealer for AesSealer<E> {
    ghost state = { λ s. s };

    fn etype(&self) -> i32 {
        self.etype.number()
    }

    fn next(&self) -> u64 {
        self.next
    }

    fn seal(
        &mut self,
        alloc: Global,
        bytes: &[u8],
        at: Moment,
        confounder: [u8; 16],
    ) -> Result<Vec<u8>, SealError> {
        if self.keys.is_wiped() {
            return Err(SealError::Wiped);
        }
        if bytes.len() > USER_DATA_LIMIT {
            return Err(SealError::TooLong);
        }
        if self.next > LAST_NUMBER {
            return Err(SealError::Exhausted);
        }
        let session = &self.session;
        let mode = session.mode;
        let number = self.next as u32;
        let body = BodyRef::new(bytes, at, number, &session.s_addr, &session.r_addr);
        let frame = frame_of(alloc, &self.keys, self.etype, mode, body, confounder)?;
        self.next += 1;
        Ok(frame)
    }

    fn wipe(&mut self) {
        self.keys.wipe();
    }
}
