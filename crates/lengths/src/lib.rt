// How long pages can be in HTML: theorems about the rules, with no code.

#![tactic(auto)]
