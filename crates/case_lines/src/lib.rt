//! Cases as lines of words, and answers as text: what programs of cases share.
#![tactic(auto)]

mod edge;
mod files;
mod printing;
mod values;
mod words;

pub use edge::{read_input, write_output};
pub use files::OpenFiles;
pub use printing::{put, put_address, put_hex, put_line, put_mac, put_name, put_number};
pub use values::{bytes_of, number_of};
pub use words::{is_remark, next_line, word_at};
