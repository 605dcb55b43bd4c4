//! What messages are sealed from.

ghost use Rattle.std.specs.Prelude.{◌≡◌, length};
ghost use Rattle.krb_etype.specs.Etype.{confounder_size};

use krb_der::Moment;

/// What one message is sealed from.
#[derive(Clone, Copy)]
pub struct Unsealed<'a> {
    /// Its user data: at most 1,000,001 bytes.
    pub user_data: &'a [u8],
    /// Its timestamp.
    pub at: Moment,
    /// 16 bytes that nobody can foresee. KRB-SAFE doesn't use them.
    pub confounder: [u8; 16],
}

/// What the type of a confounder says.
pub fn known_confounder(confounder: &[u8; 16])
    ensures { length confounder.now ≡ confounder_size }
{}
