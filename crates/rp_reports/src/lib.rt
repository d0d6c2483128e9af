#![tactic(auto)]
//! Reports: their text, the report of a script, the reader of reports and what is true of them, and the statements of
//! the laws over these.
