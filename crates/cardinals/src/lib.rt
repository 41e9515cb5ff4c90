#![tactic(auto)]
// Cardinals of any language: what is said of a number group by group, and the grammar. Definitions and their laws; there is no code.
