// The law of whole runs. A history is the list of all calls that reached one cabinet, each with its reply; what each
// restorer has heard, what he holds, how many are enrolled and what the audit says are functions of it. This crate states
// the reply of each call by its history, and promises of every history with those replies that it is lawful: answers are
// the sealed sheet's own, a question is refused as too telling exactly when it is, nothing tells the sealed sheet from
// another that gives the same answers, and no restorer holds a sheet above his threshold. It is pure: the cabinet's calls
// are tied to it in the crate above. It rests on the question language, on what a belief means and on the format of the audit.
#![tactic(auto)]
