#![tactic(auto)]
// Laws for tables, and no code: a test that antt computes over a whole table gives the rule at each entry.
