// Theory alone: lawful paths, and the entries of the two tables, for any network and any labels. No function.
#![tactic(auto)]
