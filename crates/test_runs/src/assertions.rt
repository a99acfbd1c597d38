// An assertion as a call, since the text that a macro has for a failure is written out at each place
// where it stands.
use std::fmt::Debug;
use std::process::Abort;

pub fn same<T: PartialEq + Debug + Drop>(rt: &impl Abort, found: T, wanted: T) {
    assert_eq!(rt; found, wanted);
}
