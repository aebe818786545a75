//! The codes of errors.

use crate::expecting::expect_eq;
use xk_base::XousError;

#[test]
fn codes(rt: HostRuntime) {
    let told = [
        XousError::BadAlignment.code(),
        XousError::InvalidLimit.code(),
    ];
    expect_eq(&rt, told, [1, 27]);
}
