//! Traces with the answers of other implementations of the rules, held to the model.
#![tactic(auto)]

ghost use Rattle.std.specs.Prelude.{◌≡◌, length};
ghost use Rattle.model_tests.specs.Vectors.{AllMatch, vectors};

/// How many traces there are; that the model gives the same answers in each is computed and proved.
pub fn traces() -> usize
    ensures count { result ≡ length vectors }
    ensures agree { AllMatch }
{
    20
}
