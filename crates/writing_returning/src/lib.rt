// What the writer finished reads back as it was given, and rewriting gives the same bytes: the promises of writing,
// over its definitions; there is no code.
#![tactic(auto)]
