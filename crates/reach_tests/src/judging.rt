//! What tests say of values. Each assertion stands here once, since an `assert_eq!` is several times
//! as dear to prove as a call.
use std::fmt::Debug;
use std::process::Abort;

/// What was found is what is wanted.
pub(crate) fn same<T: PartialEq + Debug + Drop>(rt: &impl Abort, found: T, wanted: T) {
    assert_eq!(rt; found, wanted);
}

/// What was found in this row is what is wanted.
pub(crate) fn same_at<R: Debug + Drop, T: PartialEq + Debug + Drop>(
    rt: &impl Abort,
    row: R,
    found: T,
    wanted: T,
) {
    assert_eq!(rt; found, wanted, "{row:?}");
}

/// So it is.
pub(crate) fn holds(rt: &impl Abort, so: bool) {
    assert!(rt; so);
}
