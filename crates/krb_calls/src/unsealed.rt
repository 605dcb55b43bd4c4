//! What C seals messages from.

use krb_structs::KrbMoment;

/// What one message is sealed from.
#[repr(C)]
#[derive(Clone, Copy)]
pub struct KrbUnsealed<'a> {
    /// Its user data: at most 1,000,001 bytes.
    pub user_data: &'a [u8],
    /// Its timestamp.
    pub at: KrbMoment,
    /// 16 bytes that nobody can foresee. KRB-SAFE doesn't use them.
    pub confounder: [u8; 16],
}
