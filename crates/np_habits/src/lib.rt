//! What people expect of each program at a command line, beside its job: its use and its version are told where that is
//! asked for, forms are named in either case, a word that is refused is named, and it ends quietly where nobody reads on.
//! `npss` itself has none of this.
#![tactic(auto)]

mod form_words;
mod notices;
mod pipes;
mod refused_words;

pub use form_words::plain_words;
pub use notices::{Notice, notice_in};
pub use pipes::{PipedOutput, QuietError};
pub use refused_words::{KnownWords, Refused, refusal_line, refused_in};
