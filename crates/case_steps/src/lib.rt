// The steps of a case file: what each does, the fields of a board, the tables, what is told of a call and the digest of
// what it leaves; and how the bytes and numbers of a case are read. The program `cases` plays them.
#![tactic(auto)]

pub mod answers;
pub mod digest;
pub mod fields;
pub mod spelling;
pub mod steps;
pub mod tables;
