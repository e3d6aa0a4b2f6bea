//! The worked cases of the rule book, as theorems about the definitions that all contracts cite.
//! Nothing here runs.

#![tactic(auto)]

ghost use Rattle.cases.specs.Cases.{Cases};
ghost use Rattle.cases.specs.Edges.{Edges};

// Every worked case comes out as the rules say.
pub fn worked_cases()
    ensures { Cases }
{}

// So do both sides of every bound of reading and printing.
pub fn edge_cases()
    ensures { Edges }
{}
