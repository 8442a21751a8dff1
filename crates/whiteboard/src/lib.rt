// The starred examples of document 01 as one computed table, and instances of every definition, proved from the definitions. No code.
#![tactic(auto)]
