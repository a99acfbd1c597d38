// An assertion as a call, since a macro repeats its text for a failure at each place where it is
// used.
use std::fmt::Debug;
use std::process::Abort;

pub fn same<T: PartialEq + Debug + Drop>(rt: &impl Abort, found: T, wanted: T) {
    assert_eq!(rt; found, wanted);
}
