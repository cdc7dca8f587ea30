// Theory alone: networks over any number of nodes and any links. No function.
#![tactic(auto)]
