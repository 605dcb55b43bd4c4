//! The encryption types.

ghost use Rattle.std.specs.Prelude.{◌≡◌, IfSome};
ghost use Rattle.krb_etype.specs.Etype.{checksum_number, etype_of, key_size, number_of};

/// How many bytes of a confounder come before what is enciphered (RFC 3961 section 5.3).
pub const CONFOUNDER_SIZE: usize = 16;

/// How many bytes the code of a message has, under each type (RFC 3962 section 6).
pub const CODE_SIZE: usize = 12;

/// An encryption type (RFC 3962).
#[derive(Clone, Copy, Debug, PartialEq, Eq)]
pub enum Etype {
    /// aes128-cts-hmac-sha1-96.
    Aes128,
    /// aes256-cts-hmac-sha1-96.
    Aes256,
}

impl Etype {
    /// The type that has this number, if one has it.
    pub fn from_number(number: i32) -> Option<Etype>
        ensures value { result ≡ etype_of number }
        ensures known { IfSome result (λ etype. number_of etype ≡ number) }
    {
        match number {
            17 => Some(Etype::Aes128),
            18 => Some(Etype::Aes256),
            _ => None,
        }
    }

    /// Its number (RFC 3962 section 7): 17 or 18.
    pub fn number(&self) -> i32
        ensures { result ≡ number_of self.now }
    {
        match self {
            Etype::Aes128 => 17,
            Etype::Aes256 => 18,
        }
    }

    /// The number of its checksum (RFC 3962 section 7): 15 or 16.
    pub fn checksum_number(&self) -> i32
        ensures { result ≡ checksum_number self.now }
    {
        match self {
            Etype::Aes128 => 15,
            Etype::Aes256 => 16,
        }
    }

    /// How many bytes its keys have (RFC 3962 section 6): 16 or 32.
    pub fn key_size(&self) -> usize
        ensures { result ≡ key_size self.now }
    {
        match self {
            Etype::Aes128 => 16,
            Etype::Aes256 => 32,
        }
    }
}
