// Nodes and patch files, as definitions, in specs/, with their laws, in proofs/. The crate `patch_reading` has the code that reads them.
#![tactic(auto)]
