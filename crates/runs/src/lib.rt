// The starred runs of document 01, and single sentences of documents 01 and 02, each a table proved by computing the definitions
// that the contracts cite: all of it is in specs/, and there is no code.
#![tactic(auto)]
