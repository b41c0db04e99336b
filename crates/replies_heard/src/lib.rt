// Theorems only: what the station writes, the web server's end hears as it was meant.
#![tactic(auto)]
