// The passes in definitions and theorems; the code that runs them stands in the crates above.
#![tactic(auto)]
