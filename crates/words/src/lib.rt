// States and answers as words, for callers that are not Rattle: the table and the link as words that the caller lends, elements and attribute rows as
// lists of words, and an answer as one number. Words of a wrong length, or out of range, are a state that the calls refuse.

#![tactic(auto)]

mod answer;
mod directory_words;
mod elements_words;
mod link_words;
mod table_words;
mod word;

pub use answer::packed;
pub use directory_words::{directory_in, put_part};
pub use elements_words::elements_in;
pub use link_words::{LINK_WORDS, link_in, put_link};
pub use table_words::{TABLE_WORDS, put_change, put_table, table_in};
pub use word::narrow;
