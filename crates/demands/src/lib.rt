// The three demands (RULES 2) as three theorems, over what a caller sees. It holds no code.
#![tactic(auto)]
