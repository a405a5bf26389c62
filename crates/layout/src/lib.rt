// Layout by the bytes of a file, as definitions, and the theorems that this is layout on its tree. Definitions and theorems alone: the code is the crate `laying`.

#![tactic(auto)]
