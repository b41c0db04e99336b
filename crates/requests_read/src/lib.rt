// Theorems only: what the web server's end writes for requests, the station reads as just these requests.
#![tactic(auto)]
