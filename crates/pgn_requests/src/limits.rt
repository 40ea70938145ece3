/// The most tokens of a text that is read as something beside the commands of the grammar.
pub const TOKENS_MAX: usize = 24;
