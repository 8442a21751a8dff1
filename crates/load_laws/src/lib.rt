// Laws of loads: a seed has one load, which is well formed, and the same plan as before its swaps. No code.
#![tactic(auto)]
