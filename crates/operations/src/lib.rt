// What the three operations give, for every input: definitions and laws, no code.
#![tactic(auto)]
