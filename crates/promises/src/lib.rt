// What the desk promises about whole runs, proved of the definitions that its contracts cite: all of it is in specs/, and there is no code.
#![tactic(auto)]
