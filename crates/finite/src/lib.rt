// Theory alone: tests, finite sums, searches, and sets written as numbers. No function.
#![tactic(auto)]
