// The cases of documents 01 and 02 as one table, and its theorem; there is no code here.
#![tactic(auto)]
