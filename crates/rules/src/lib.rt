// What the rules decide, on values: definitions and laws, no code.
#![tactic(auto)]
