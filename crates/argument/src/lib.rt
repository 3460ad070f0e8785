// The safety argument over a view of a machine: all of it is in specs/, and there is no code.
#![tactic(auto)]
