//! The tokens of a source, and the text of a string token.
#![tactic(auto)]

mod cut;
mod ending;
mod fault;
mod laws;
mod mark;
mod mode;
mod name;
mod number;
mod piece;
mod place;
mod run;
mod scan;
mod scanner;
mod string;
mod text;
mod token;
mod widths;
mod word;

pub use fault::{LexFault, LexStop};
pub use laws::{
    all_good, an_answer, first_fault, lines_whole, one_answer, spelled, token_bytes, token_texts,
};
pub use mark::Mark;
pub use scan::tokens;
pub use text::{name_of, text_of};
pub use token::{Token, TokenKind};
pub use word::Word;
