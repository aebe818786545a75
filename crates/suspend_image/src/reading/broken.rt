//! Why a part of a state isn't read.

ghost use Rattle.std.specs.Prelude.{◌≡◌};
ghost use Rattle.suspend_image.specs.declared.reading.broken.Broken.TheVariants.{NoMemory as OutOfMemory};

use xk_base::NoMemory;

/// Why a part of a state isn't read.
#[derive(Clone, Copy, Debug, PartialEq, Eq)]
pub enum Broken {
    /// A word breaks the form, and so many bytes stand from it on.
    Form(usize),
    /// There was no memory for its rows.
    NoMemory,
}

impl From<NoMemory> for Broken {
    ghost from_gives = { λ _ e. e ≡ OutOfMemory };

    fn from(_e: NoMemory) -> Broken {
        Broken::NoMemory
    }
}
