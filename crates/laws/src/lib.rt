// Laws of the definitions, for the proofs above: lists and stores, chains and free blocks, directory blocks and entries, and what
// each change of the map and of the directory keeps. No code.
#![tactic(auto)]
