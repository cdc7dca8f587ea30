// Theory alone: the networks worked by hand (RULES 11.1), as one constant table, and the one statement over its entries. No function.
#![tactic(auto)]
