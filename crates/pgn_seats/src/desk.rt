use pgn_messages::Ask;
use pgn_outlet::{Outlet, OutletPass};
use pgn_requests::Settings;
use pgn_session::Session;

/// What a seat is asked, in order; `None` stands behind all of it, where nothing more will be asked.
pub type Inbox = Outlet<Option<Ask>>;

/// A seat's session, the pass by which it takes what the seat is asked, and the settings of its client.
#[derive(Drop)]
pub struct Desk<P> {
    pub session: Session<P>,
    pub asks: OutletPass<Option<Ask>>,
    /// So many lines of the session's script notify.
    pub notes: u32,
    /// Of the client that is there, or that will come.
    pub settings: Settings,
}
