//! The first refusal of two, and its words.

use crate::expecting::expect_eq;
use machine_model::{first_refusal, refusal_words};
use xk_base::XousError;

const TESTS: [(bool, XousError); 3] = [
    (false, XousError::BadAlignment),
    (true, XousError::ShareViolation),
    (true, XousError::BadAddress),
];

#[test]
fn first_of_two(rt: HostRuntime) {
    let told = [first_refusal(&TESTS), first_refusal(&TESTS[..1])];
    expect_eq(&rt, told, [Some(XousError::ShareViolation), None]);
    let words = refusal_words(XousError::ShareViolation);
    expect_eq(&rt, words, [1, 19, 0, 0, 0, 0, 0, 0]);
}
