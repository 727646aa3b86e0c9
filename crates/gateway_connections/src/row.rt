//! A connection in the table.

ghost use Rattle.std.specs.Prelude.{◌≡◌};
ghost use Rattle.gateway_connections.specs.Rows.{settled, put_back};

use crate::inbox::Inbox;

/// A connection. It can go back to what it was at its mark.
#[derive(Drop)]
pub struct Row {
    pub inbox: Inbox,
    /// It opened since the mark.
    pub fresh: bool,
    /// It closed since the mark, and is kept only to go back.
    pub closed: bool,
}

impl Row {
    /// Marks what it is.
    pub fn mark(&mut self)
        ensures { self.new ≡ settled self.old }
    {
        self.inbox.mark();
        self.fresh = false;
    }

    /// Goes back to what it was at the mark.
    pub fn back(&mut self)
        ensures { self.new ≡ put_back self.old }
    {
        self.inbox.back();
        self.fresh = false;
        self.closed = false;
    }
}
