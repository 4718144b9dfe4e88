// What each public call refuses: the first refusal in the order of docs/SCOPE.md, or none.
#![tactic(auto)]

mod edit;
mod given;
mod matcher;
mod parts;
mod search;
mod sheet;
mod table;

pub use edit::{check_replace, check_replacement};
pub use given::{check_beside, check_given};
pub use matcher::check_plain;
pub use parts::{check_newer, check_subtree};
pub use search::{check_search, check_variables};
pub use sheet::{check_results, check_sheet};
pub use table::check_build;
