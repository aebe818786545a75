//! What is expected of a call's answer. Each assertion takes a proof wherever it stands, which costs more than a call, so tests
//! call that of this file.

use std::fmt::Debug;
use std::process::Abort;

/// The answer is just the one that was wanted.
pub fn expect_eq<T: Copy + Debug + PartialEq>(rt: &impl Abort, told: T, wanted: T) {
    assert_eq!(rt; told, wanted);
}
