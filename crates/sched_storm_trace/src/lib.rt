//! Traces: the events of many requests on one clock, each answered by what the requests share. It defines when a list
//! of events is a trace, and proves that there is one alone. It stands on the standard library.
#![tactic(auto)]
