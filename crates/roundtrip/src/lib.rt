// Task files both ways, proved of the definitions that the reader's and the writer's contracts cite: all of it is in specs/, and there is no code.
#![tactic(auto)]
