// Laws for the other crates' proofs: all of it is in specs/, and there is no code.
#![tactic(auto)]
