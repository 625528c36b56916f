//! Status texts and what is judged of them.
use crate::{Judged, judge};
use child_ports::Fingerprint;
use std::process::Abort;
use std::test::Fail;

const KEY: Fingerprint = Fingerprint([
    0xBB, 0xB0, 0x2D, 0xDF, 0x2C, 0xEA, 0xF6, 0xA8, 0x0D, 0x1D, 0xE6, 0x43, 0xA2, 0xA0, 0x6D, 0xF2,
    0xA3, 0x3A, 0x54, 0xFA,
]);

const VALID: Judged = Judged::Valid { key: KEY, hash: 8 };

// The status output of gpgv 2.2.40: keys of ed25519 but for that of the last, which is of RSA.
const GOOD: &str = "\
[GNUPG:] NEWSIG good@example.org
[GNUPG:] KEY_CONSIDERED 9F461C62BB3DADBE2B448B6FB5CDB1B9EF9B390C 0
[GNUPG:] SIG_ID fiFLCsj94wJmoDNhBuxEUlJV57g 2020-06-01 1590969600
[GNUPG:] KEY_CONSIDERED 9F461C62BB3DADBE2B448B6FB5CDB1B9EF9B390C 0
[GNUPG:] GOODSIG B5CDB1B9EF9B390C Good <good@example.org>
[GNUPG:] VALIDSIG 9F461C62BB3DADBE2B448B6FB5CDB1B9EF9B390C 2020-06-01 1590969600 0 4 0 22 8 00 9F461C62BB3DADBE2B448B6FB5CDB1B9EF9B390C
";

const OTHER_PAYLOAD: &str = "\
[GNUPG:] NEWSIG good@example.org
[GNUPG:] KEY_CONSIDERED 9F461C62BB3DADBE2B448B6FB5CDB1B9EF9B390C 0
[GNUPG:] KEY_CONSIDERED 9F461C62BB3DADBE2B448B6FB5CDB1B9EF9B390C 0
[GNUPG:] BADSIG B5CDB1B9EF9B390C Good <good@example.org>
";

const EXPIRED_KEY: &str = "\
[GNUPG:] NEWSIG expired@example.org
[GNUPG:] KEY_CONSIDERED CF265545625A6E8F1FCA8DC1C686B5ACFFB189C2 0
[GNUPG:] KEYEXPIRED 1609502400
[GNUPG:] SIG_ID gHka78dPYDaurAOSil3EKT0++9g 2020-06-01 1590969600
[GNUPG:] KEY_CONSIDERED CF265545625A6E8F1FCA8DC1C686B5ACFFB189C2 0
[GNUPG:] EXPKEYSIG C686B5ACFFB189C2 Expired <expired@example.org>
[GNUPG:] VALIDSIG CF265545625A6E8F1FCA8DC1C686B5ACFFB189C2 2020-06-01 1590969600 0 4 0 22 8 00 CF265545625A6E8F1FCA8DC1C686B5ACFFB189C2
";

const REVOKED_KEY: &str = "\
[GNUPG:] NEWSIG revoked@example.org
[GNUPG:] KEY_CONSIDERED D1884EA1CC2095D2715359EF1FA6D6A8D009F54D 0
[GNUPG:] SIG_ID mwtteyvF0wdmxd3GVLDiu4T8+S0 2020-06-01 1590969600
[GNUPG:] KEY_CONSIDERED D1884EA1CC2095D2715359EF1FA6D6A8D009F54D 0
[GNUPG:] REVKEYSIG 1FA6D6A8D009F54D Revoked <revoked@example.org>
[GNUPG:] VALIDSIG D1884EA1CC2095D2715359EF1FA6D6A8D009F54D 2020-06-01 1590969600 0 4 0 22 8 00 D1884EA1CC2095D2715359EF1FA6D6A8D009F54D
";

// The signing key is a subkey of BF7C3638274F869F695AC5D6403B27237A6D3018.
const SIGNING_SUBKEY: &str = "\
[GNUPG:] NEWSIG sub@example.org
[GNUPG:] KEY_CONSIDERED BF7C3638274F869F695AC5D6403B27237A6D3018 0
[GNUPG:] SIG_ID Imitk3UyKd4GLktvXQUjCq8q6OU 2020-06-01 1590969600
[GNUPG:] KEY_CONSIDERED BF7C3638274F869F695AC5D6403B27237A6D3018 0
[GNUPG:] GOODSIG 75497E213D0D2253 Sub <sub@example.org>
[GNUPG:] VALIDSIG 047210AF431A694D636B0DB975497E213D0D2253 2020-06-01 1590969600 0 4 0 22 8 00 BF7C3638274F869F695AC5D6403B27237A6D3018
";

const UNKNOWN_KEY: &str = "\
[GNUPG:] NEWSIG sub@example.org
[GNUPG:] ERRSIG 75497E213D0D2253 22 8 00 1590969600 9 047210AF431A694D636B0DB975497E213D0D2253
[GNUPG:] NO_PUBKEY 75497E213D0D2253
";

const SHA1_SIGNATURE: &str = "\
[GNUPG:] NEWSIG rsa@example.org
[GNUPG:] KEY_CONSIDERED 59434630592EFF99B347BF490023616F0C24E1E4 0
[GNUPG:] SIG_ID NtkWevAFWl1qeY7787TFo5Hu3GQ 2020-06-01 1590969600
[GNUPG:] KEY_CONSIDERED 59434630592EFF99B347BF490023616F0C24E1E4 0
[GNUPG:] GOODSIG 0023616F0C24E1E4 Rsa <rsa@example.org>
[GNUPG:] VALIDSIG 59434630592EFF99B347BF490023616F0C24E1E4 2020-06-01 1590969600 0 4 0 1 2 00 59434630592EFF99B347BF490023616F0C24E1E4
";

// A valid signature of the key that is written so.
fn valid(rt: &impl Abort, digits: &str, hash: u32) -> Judged {
    match Fingerprint::of_text(digits) {
        Some(key) => Judged::Valid { key, hash },
        None => panic!(rt; "{digits} is a fingerprint"),
    }
}

#[test]
fn gpgv_is_read_as_it_writes(rt: HostRuntime) -> Result<(), Fail> {
    // The key that signed is the line's first field, and may be a subkey. Expiry and revocation are left aside.
    for (status, key, hash) in [
        (GOOD, "9F461C62BB3DADBE2B448B6FB5CDB1B9EF9B390C", 8),
        (EXPIRED_KEY, "CF265545625A6E8F1FCA8DC1C686B5ACFFB189C2", 8),
        (REVOKED_KEY, "D1884EA1CC2095D2715359EF1FA6D6A8D009F54D", 8),
        (
            SIGNING_SUBKEY,
            "047210AF431A694D636B0DB975497E213D0D2253",
            8,
        ),
        (
            SHA1_SIGNATURE,
            "59434630592EFF99B347BF490023616F0C24E1E4",
            2,
        ),
    ] {
        let want = valid(&rt, key, hash);
        assert_eq!(rt; judge(status.as_bytes()), want, "at {status}");
    }
    assert_eq!(rt; judge(OTHER_PAYLOAD.as_bytes()), Judged::Bad);
    assert_eq!(rt; judge(UNKNOWN_KEY.as_bytes()), Judged::NoKey);
    Ok(())
}

#[test]
fn the_first_rule_that_applies_judges(rt: HostRuntime) -> Result<(), Fail> {
    for (status, want) in [
        ("", Judged::Nothing),
        (
            "[GNUPG:] VALIDSIG BBB02DDF2CEAF6A80D1DE643A2A06DF2A33A54FA 2020-01-01 1577836800 0 4 0 1 8 00",
            VALID,
        ),
        (
            "[GNUPG:] VALIDSIG BBB02DDF2CEAF6A80D1DE643A2A06DF2A33A54FA 2020-01-01 1577836800 0 4 0 1 8 00 0000000000000000000000000000000000000000\n",
            VALID,
        ),
        (
            "[GNUPG:] EXPKEYSIG A33A54FA a\n[GNUPG:] VALIDSIG BBB02DDF2CEAF6A80D1DE643A2A06DF2A33A54FA 2020-01-01 1577836800 0 4 0 1 8 00\n",
            VALID,
        ),
        (
            "[GNUPG:] VALIDSIG BBB02DDF2CEAF6A80D1DE643A2A06DF2A33A54FA 2020-01-01 1577836800 0 4 0 1 8 00\n[GNUPG:] BADSIG A33A54FA a",
            Judged::Bad,
        ),
        (
            "[GNUPG:] VALIDSIG BBB02DDF2CEAF6A80D1DE643A2A06DF2A33A54FA 2020-01-01 1577836800 0 4 0 1 8 00\n[GNUPG:] VALIDSIG BBB02DDF2CEAF6A80D1DE643A2A06DF2A33A54FA 2020-01-01 1577836800 0 4 0 1 8 00\n",
            Judged::Several,
        ),
        (
            "[GNUPG:] ERRSIG A33A54FA 1 8 00 0 9\n[GNUPG:] NO_PUBKEY A33A54FA\n",
            Judged::NoKey,
        ),
        ("[GNUPG:] ERRSIG A33A54FA 1 8 00 0 9\n", Judged::Bad),
        ("[GNUPG:] NODATA 1\n", Judged::NoData),
        (
            "gpgv: a [GNUPG:] BADSIG\n[GNUPG:] BADSIGS\n",
            Judged::Nothing,
        ),
    ] {
        assert_eq!(rt; judge(status.as_bytes()), want, "at {status}");
    }
    Ok(())
}

#[test]
fn fields_of_another_form_are_unreadable(rt: HostRuntime) -> Result<(), Fail> {
    for (status, want) in [
        (
            "[GNUPG:] VALIDSIG BBB02DDF2CEAF6A80D1DE643A2A06DF2A33A54FA 2020-01-01 1577836800 0 4 0 1 8",
            Judged::Unreadable(1),
        ),
        ("\ngpgv\n[GNUPG:] VALIDSIG", Judged::Unreadable(3)),
        (
            "[GNUPG:] VALIDSIG BBB02DDF2CEAF6A80D1DE643A2A06DF2A33A54FA 2020-01-01 1577836800 0 4 0 1 08 00",
            VALID,
        ),
        (
            "[GNUPG:] VALIDSIG BBB02DDF2CEAF6A80D1DE643A2A06DF2A33A54FA 2020-01-01 1577836800 0 4 0 1 0008 00",
            Judged::Unreadable(1),
        ),
        (
            "[GNUPG:] VALIDSIG BBB02DDF2CEAF6A80D1DE643A2A06DF2A33A54FA 2020-01-01 1577836800 0 4 0 1 255 00",
            Judged::Valid {
                key: KEY,
                hash: 255,
            },
        ),
        (
            "[GNUPG:] VALIDSIG BBB02DDF2CEAF6A80D1DE643A2A06DF2A33A54FA 2020-01-01 1577836800 0 4 0 1 256 00",
            Judged::Unreadable(1),
        ),
        (
            "[GNUPG:] VALIDSIG BBB02DDF2CEAF6A80D1DE643A2A06DF2A33A54F 2020-01-01 1577836800 0 4 0 1 8 00",
            Judged::Unreadable(1),
        ),
        (
            "[GNUPG:] VALIDSIG  BBB02DDF2CEAF6A80D1DE643A2A06DF2A33A54FA 2020-01-01 1577836800 0 4 0 1 8 00",
            Judged::Unreadable(1),
        ),
    ] {
        assert_eq!(rt; judge(status.as_bytes()), want, "at {status}");
    }
    Ok(())
}
