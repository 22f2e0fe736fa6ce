use crate::{divide, ratio, remainder};

#[test]
fn quotients(rt: HostRuntime) {
    assert_eq!(rt; divide(-7, 2), Some(-3));
    assert_eq!(rt; remainder(-7, 2), Some(-1));
    assert_eq!(rt; divide(i64::MIN, -1), Some(i64::MIN));
    assert_eq!(rt; remainder(i64::MIN, -1), Some(0));
    assert_eq!(rt; divide(1, 0), None);
}

#[test]
fn ratios(rt: HostRuntime) {
    assert_eq!(rt; ratio(5, 2), Some(3));
    assert_eq!(rt; ratio(-5, 2), Some(-3));
    assert_eq!(rt; ratio(i64::MIN, -1), Some(i64::MIN));
    assert_eq!(rt; ratio(5, 0), None);
}
