ghost use Rattle.std.specs.Prelude.{◌≡◌};
ghost use Rattle.pgn_hub.specs.declared.known.Known.{Known};

use pgn_base::{DbOid, SessionNo, Xid};

/// What a pass shows. Contracts see all that is known of it.
pub trait PassView {
    ghost known: { Self → Known };

    /// The session that the pass belongs to.
    fn session(&self) -> SessionNo
        ensures { result ≡ (known self.now).session };

    /// The session's database.
    fn db(&self) -> DbOid
        ensures { result ≡ (known self.now).db };

    /// A listener has read everything below its mark.
    fn mark(&self) -> Option<Xid>
        ensures { result ≡ (known self.now).mark };
}
