// One way to divide: messages end to end are found from the front, and in one manner only. The promises are over the
// definitions; there is no code.
#![tactic(auto)]
