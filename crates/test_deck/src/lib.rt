// The deck for tests in another language: every call and every question on any deck at all, with nothing asked of the caller. A deck
// is handed over as one array of words, and the kinds of its pins as bytes; a reply or an answer is a kind, three numbers and two points.
#![tactic(auto)]

pub mod call_entries;
pub mod parts;
mod places;
pub mod question_entries;
mod words;
