//! What a connection waits for, and for how long.

/// What a connection waits for.
#[derive(Clone, Copy, Debug, PartialEq, Eq)]
pub enum On {
    /// A request.
    Request,
    /// The rest of a request, or its answer.
    Rest,
    /// That its client reads what is left for it.
    Reader,
}

/// Since when, as far as it was looked at since.
#[derive(Clone, Copy, Debug, PartialEq, Eq)]
pub struct Times {
    /// since when it has waited for the same
    pub since: u64,
    /// when its client went on last
    pub moved: u64,
    /// since when the head of a request has come that isn't whole, if one has
    pub heading: Option<u64>,
    /// It waits for something else than when it was looked at last.
    changed: bool,
    /// Its client went on since then.
    went: bool,
}

impl Times {
    /// It wasn't looked at yet.
    pub fn new() -> Times {
        Times {
            since: 0,
            moved: 0,
            heading: None,
            changed: true,
            went: false,
        }
    }

    /// It waits for something else.
    pub fn change(&mut self) {
        self.changed = true;
    }

    /// Its client goes on: bytes moved.
    pub fn go_on(&mut self) {
        self.went = true;
    }

    /// For how many milliseconds it has waited for the same, at this moment.
    pub fn waited(self, moment: u64) -> u64 {
        if self.changed {
            0
        } else {
            moment.saturating_sub(self.since)
        }
    }

    /// For how many its client has stood still.
    pub fn stood(self, moment: u64) -> u64 {
        if self.changed || self.went {
            0
        } else {
            moment.saturating_sub(self.moved)
        }
    }

    /// For how many milliseconds the head of a request has come that isn't whole.
    pub fn headed(self, moment: u64) -> u64 {
        match self.heading {
            Some(since) => moment.saturating_sub(since),
            None => 0,
        }
    }

    /// It is looked at, at this moment, at which a part of a head is there or not.
    pub fn look(&mut self, moment: u64, part: bool) {
        self.heading = match self.heading {
            Some(since) if part && !self.changed => Some(since),
            _ if part => Some(moment),
            _ => None,
        };
        if self.changed {
            self.since = moment;
        }
        if self.changed || self.went {
            self.moved = moment;
        }
        self.changed = false;
        self.went = false;
    }
}

/// What a connection waits for, and for how long.
#[derive(Clone, Copy, Debug, PartialEq, Eq)]
pub struct Waits {
    pub on: On,
    pub times: Times,
    /// The client sends no more.
    pub ended: bool,
}
