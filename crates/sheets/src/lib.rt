// Many writes joined to few (document 02, N14): later ones win, and ranges that touch become one.
#![tactic(auto)]

pub mod sheet; // the writes of a sheet, in rows of three words
pub mod joining; // the sweep that joins them
