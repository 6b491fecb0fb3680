//! Numbers of operations.
use std::process::Abort;
use tv_base::{Opstamp, Stamper};

// Looks whether these numbers are drawn next, one after the other.
fn draws<R: Abort>(rt: &R, stamper: &mut Stamper, want: &[Opstamp]) {
    for stamp in want {
        assert_eq!(rt; stamper.stamp().expect(rt, "a number"), *stamp);
    }
}

// Looks whether the next numbers, this many, begin and end here.
fn draws_together<R: Abort>(rt: &R, stamper: &mut Stamper, start: Opstamp, end: Opstamp) {
    let stamps = stamper
        .stamps(end.wrapping_sub(start))
        .expect(rt, "numbers");
    assert_eq!(rt; stamps.start, start);
    assert_eq!(rt; stamps.end, end);
}

#[test]
fn stamps_come_one_after_the_other(rt: HostRuntime) {
    let mut stamper = Stamper::new(7);
    draws(&rt, &mut stamper, &[7, 8, 9, 10, 11]);
    draws_together(&rt, &mut stamper, 12, 15);
    draws(&rt, &mut stamper, &[15]);
}

#[test]
fn stamps_go_on_from_an_earlier_one(rt: HostRuntime) {
    let mut stamper = Stamper::new(7);
    draws(&rt, &mut stamper, &[7, 8, 9]);
    assert_eq!(rt; stamper.revert(6), 6);
    draws(&rt, &mut stamper, &[6, 7]);
    assert_eq!(rt; stamper.next(), 8);
}

#[test]
fn the_last_number_is_no_stamp(rt: HostRuntime) {
    let mut stamper = Stamper::new(u64::MAX);
    assert!(rt; stamper.stamp().is_err());
    assert!(rt; stamper.stamps(1).is_err());
    draws_together(&rt, &mut stamper, u64::MAX, u64::MAX);
    assert_eq!(rt; stamper.next(), u64::MAX);
}
