use crate::{character, length};

// Whether these are the characters of a number's decimal.
fn reads(z: i64, expected: &[u8]) -> bool {
    length(z) == expected.len()
        && expected
            .iter()
            .enumerate()
            .all(|(j, c)| character(z, j) == Some(*c))
        && character(z, expected.len()).is_none()
}

#[test]
fn decimals(rt: HostRuntime) {
    assert!(rt; reads(0, b"0"));
    assert!(rt; reads(-1, b"-1"));
    assert!(rt; reads(i64::MIN, b"-9223372036854775808"));
    assert!(rt; reads(i64::MAX, b"9223372036854775807"));
}
