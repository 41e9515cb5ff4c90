#![tactic(auto)]
// 01's proved samples, and no code: one table and one theorem over the definitions that the calls' contracts cite.
