// Assertions as calls, since a macro's text for a failure is written out at each place
// where it stands.
use std::fmt::Debug;
use std::process::Abort;

pub fn same_at<C: Debug + Drop, T: PartialEq + Debug + Drop>(
    rt: &impl Abort,
    at: C,
    found: T,
    wanted: T,
) {
    assert_eq!(rt; found, wanted, "at {at:?}");
}
