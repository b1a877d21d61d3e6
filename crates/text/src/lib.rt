// The text of a book: bytes, lines, fields, numbers, expressions, and the forms that a line may have.
// The functions are for the crate `book`: each call is proved to meet its condition.
#![tactic(auto)]

mod bytes;
mod expressions;
mod keywords;
mod lines;
mod numbers;

pub use bytes::line_end;
pub use expressions::{CODE_COUNT, Code, Codes, read_codes, read_expression};
pub use lines::{Line, read_line};
