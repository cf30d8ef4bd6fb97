//! What tests say of values. Each assertion stands here once, since an `assert_eq!` is several times
//! as dear to prove as a call.
use std::fmt::Debug;
use std::process::Abort;

pub(super) fn same<T: PartialEq + Debug + Drop>(rt: &impl Abort, found: T, wanted: T) {
    assert_eq!(rt; found, wanted);
}

pub(super) fn same_at<T: PartialEq + Debug + Drop>(
    rt: &impl Abort,
    kind: &str,
    number: usize,
    found: T,
    wanted: T,
) {
    assert_eq!(rt; found, wanted, "{kind} {number}");
}
