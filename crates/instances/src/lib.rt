// Instances of what inner functions require and a public one does not: on the plans of the whiteboard's instances. No code.
#![tactic(auto)]
