// Patch files: the code that reads them, and the views of a patch and of its nodes.
#![tactic(auto)]

pub mod files;
pub mod fronts;
pub mod nodes;
pub mod patches;
