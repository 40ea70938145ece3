//! What a client of a service asks for: a query of its script, or something that is settled without the session.
#![tactic(auto)]

mod complaint;
mod limits;
mod mode;
mod request;
mod setting;
mod settings;
mod settled;
mod short_text;
mod verdict;

pub use complaint::{Cause, Complaint, Wording};
pub use limits::TOKENS_MAX;
pub use mode::Mode;
pub use request::Request;
pub use setting::{Setting, default_of, number_of, setting_name};
pub use settings::{Entry, Settings};
pub use settled::Settled;
pub use short_text::{SHORT_BYTES_MAX, ShortText};
pub use verdict::Verdict;
