// Theorems only: what a station with a queue writes, the web server's end hears as it was meant.
#![tactic(auto)]
