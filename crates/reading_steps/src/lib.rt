// The steps of an accepted message have a ceiling: promises over the definitions of reading; there is no code.
#![tactic(auto)]
