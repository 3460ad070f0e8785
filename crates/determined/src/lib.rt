// What it is for a contract to determine its answer: all of it is in specs/, and there is no code.
#![tactic(auto)]
