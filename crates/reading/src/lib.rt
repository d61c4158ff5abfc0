// Types and slices in bytes: the code that reads them.
#![tactic(auto)]

pub mod files;
pub mod fronts;
pub mod inputs;
pub mod nested;
pub mod prefixes;
pub mod sections;
pub mod types;
