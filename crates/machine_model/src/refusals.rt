//! Refusals of system calls.

ghost use Rattle.std.specs.Prelude.{◌≡◌};
ghost use Rattle.syscall_codec.specs.ReplyWords.{refused_words};
ghost use Rattle.machine_model.specs.State.Changes.{first_refusal};

use xk_base::XousError;

/// The error of the first test of a list of refusals that holds, and `None` where none does.
#[tactic(auto, using(crate::proofs::Calling::RefusalLemmas::first_holds, crate::proofs::Calling::RefusalLemmas::first_passes))]
pub fn first_refusal(tests: &[(bool, XousError)]) -> Option<XousError>
    ensures { result ≡ first_refusal tests.now }
{
    for (holds, error) in tests {
        if *holds {
            return Some(*error);
        }
    }
    None
}

/// The eight words that a refused caller is answered.
pub fn refusal_words(error: XousError) -> [u32; 8]
    ensures { result ≡ refused_words error }
{
    [1, error.code(), 0, 0, 0, 0, 0, 0]
}
