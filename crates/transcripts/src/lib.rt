//! Each list of lines, and so each input, has answers that the headline allows: for each behaviour of the externals,
//! and by their turns just one. These are laws over the headline, each the contract of a function that does nothing.
//!
//! - A fresh command has a reply (`replies_exist`), also by each behaviour (`replies_exist_by_behaviours`), and by the
//!   turns that are told just one (`replies_are_one`).
//! - From any states whose cursor stands on one, and beside any desk, lines have answers none of which is refused for
//!   memory or for its file (`transcripts_exist`). From whole states lines of bytes have them by each behaviour that
//!   leaves as many cells and makes texts of texts (`transcripts_exist_by_behaviours`).
//! - Two such answers to the same lines are the same, with all states, the logs and what the desk keeps and hears, if
//!   their turns follow one table, and of the others each external's are the head of one list (`transcripts_are_one`).
//! - Whole states lead to whole ones, whatever the externals do (`replies_stay_whole`, `transcripts_stay_whole`).
//! - Not claimed: that the program has the memory for its answers, or can write its file.
#![tactic(auto)]

mod law;

pub use law::{
    kit_is_a_table, replies_are_one, replies_exist, replies_exist_by_behaviours,
    replies_stay_whole, transcripts_are_one, transcripts_exist, transcripts_exist_by_behaviours,
    transcripts_go_on, transcripts_stay_whole,
};
