// Computed cases only: rules of the queue and the pump that no theorem about runs would notice.
#![tactic(auto)]
