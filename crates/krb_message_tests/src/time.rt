//! Moments, and the text of KerberosTime (RFC 4120 section 5.2.3).

use krb_time::{LAST_SECOND, Moment, kerberos_time, read_kerberos_time};

/// Whether these parts are those of the moment.
fn are_parts(secs: u64, usec: u32, micros: u64) -> bool {
    match (Moment::new(secs, usec), Moment::from_micros(micros)) {
        (Some(made), Some(m)) => {
            made == m && (m.secs(), m.usec(), m.micros()) == (secs, usec, micros)
        }
        _ => false,
    }
}

#[test]
fn parts_make_a_moment(rt: HostRuntime) {
    for (secs, usec, micros) in [
        (0, 0, 0),
        (0, 999_999, 999_999),
        (1_700_000_000, 5, 1_700_000_000_000_005),
        (253_402_300_799, 999_999, 253_402_300_799_999_999),
    ] {
        assert!(rt; are_parts(secs, usec, micros), "at {micros}");
    }
    assert!(rt; Moment::new(253_402_300_800, 0).is_none());
    assert!(rt; Moment::new(0, 1_000_000).is_none());
    assert!(rt; Moment::new(u64::MAX, u32::MAX).is_none());
    assert!(rt; Moment::from_micros(253_402_300_800_000_000).is_none());
    assert!(rt; Moment::from_micros(u64::MAX).is_none());
    assert!(rt; Moment::new(7, 999_999) < Moment::new(8, 0));
}

/// Whether the text is written for the second, and the second read of it.
fn is_time_of(secs: u64, text: &[u8; 15]) -> bool {
    secs <= LAST_SECOND && kerberos_time(secs) == *text && read_kerberos_time(text) == Some(secs)
}

// The seconds are those of Python's datetime. The time of 1985 is the example of RFC 4120
// section 5.2.3, "6 minutes, 27 seconds after 9 pm on 6 November 1985".
#[test]
fn writes_and_reads_the_same_time(rt: HostRuntime) {
    for (secs, text) in [
        (0, b"19700101000000Z"),
        (500_159_187, b"19851106210627Z"),
        (951_825_600, b"20000229120000Z"),
        (1_700_000_000, b"20231114221320Z"),
        (1_709_251_199, b"20240229235959Z"),
        (2_147_483_648, b"20380119031408Z"),
        (4_107_542_399, b"21000228235959Z"),
        (4_107_542_400, b"21000301000000Z"),
        (4_294_967_296, b"21060207062816Z"),
        (253_402_300_799, b"99991231235959Z"),
    ] {
        assert!(rt; is_time_of(secs, text), "at {secs}");
    }
    let refused: [&[u8]; 19] = [
        b"",
        b"20231114221320",
        b"2023111422132Z",
        b"20231114221320Z0",
        b"20231114221320ZZ",
        b"20231114221320z",
        b"20231114221320.5Z",
        b"2023111422132oZ",
        b"+0231114221320Z",
        b"20231114221360Z",
        b"20231114226020Z",
        b"20231114241320Z",
        b"20231100221320Z",
        b"20230229221320Z",
        b"21000229000000Z",
        b"20230431000000Z",
        b"20231314221320Z",
        b"20230014221320Z",
        b"19691231235959Z",
    ];
    for (at, text) in refused.iter().enumerate() {
        assert!(rt; read_kerberos_time(text).is_none(), "at {at}");
    }
}
