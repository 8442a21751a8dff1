// Signs of words and switch masks: definitions and theorems. No code.
#![tactic(auto)]
