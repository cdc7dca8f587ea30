// Theory alone: the labelling rule and its candidates, over any network. No function.
#![tactic(auto)]
