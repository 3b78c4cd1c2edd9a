// The plain model: definitions alone, in specs/, that the demands and the isolation of lines cite.
#![tactic(auto)]
