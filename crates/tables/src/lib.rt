// Drive tables from a customer (document 02, N3): rows of alignments in the house form of records, loaded whole or refused.
#![tactic(auto)]

pub mod table; // a table, its rows by index, and loading one
pub mod words; // the same in words, as a host holds it
