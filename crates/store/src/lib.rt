//! What a store means, the two traits of a store, its calls as values, and what every store's commit checks first.
#![tactic(auto)]

mod calls;
mod checks;
mod traits;
mod update;
mod version;
mod worked;

pub use calls::{StoreAnswer, StoreCall, perform, run};
pub use checks::{are_fit, check_commit, check_query, issue};
pub use traits::{Reads, Store};
pub use update::Update;
pub use version::Version;
pub use worked::worked_cases;
