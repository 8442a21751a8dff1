// Laws of the catalogue: the walk through rising lists in dictionary order, a model that can be computed, and demand 3. No code.
#![tactic(auto)]
