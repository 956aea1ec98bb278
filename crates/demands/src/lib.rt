// No code: the theorems that a reader comes for are in specs/, a file for each demand.
#![tactic(auto)]
