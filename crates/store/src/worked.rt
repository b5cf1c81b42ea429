//! The worked cases on intervals and stores, held to the definitions.
ghost use Rattle.store.specs.Worked.{WorkedCases};

/// How many worked cases the table has; that each comes out as it says is proved.
#[tactic(auto, unfolding(crate::specs::Meaning::versions_below))]
pub fn worked_cases() -> usize
    ensures { WorkedCases result }
{
    12
}
