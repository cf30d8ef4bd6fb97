//! What tests say of values. Each assertion stands here once, since an `assert_eq!` is several times
//! as dear to prove as a call.
use item_list::Items;
use std::fmt::Debug;
use std::process::Abort;

pub(crate) fn same<T: PartialEq + Debug + Drop>(rt: &impl Abort, found: T, wanted: T) {
    assert_eq!(rt; found, wanted);
}

pub(crate) fn same_at<R: Debug + Drop, T: PartialEq + Debug + Drop>(
    rt: &impl Abort,
    row: R,
    found: T,
    wanted: T,
) {
    assert_eq!(rt; found, wanted, "{row:?}");
}

pub(crate) fn holds(rt: &impl Abort, so: bool) {
    assert!(rt; so);
}

/// How many items the client of this number has, if it's there.
pub(crate) fn len_at(lists: &[Items], at: usize) -> Option<usize> {
    match lists.get(at) {
        Some(list) => Some(list.len()),
        None => None,
    }
}
