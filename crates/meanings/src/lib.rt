#![tactic(auto)]
// What readers share: the lookup of a word's meaning by its key. There is no code here, only the definition and its laws.
