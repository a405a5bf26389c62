// What a writer of fragment files is asked for, step by step, and the tree and the bytes that this is. Definitions and theorems alone: the code is the crate `scribe`.

#![tactic(auto)]
