//! Which rows may differ from the mark.

ghost use Rattle.std.specs.Prelude.{◌≡◌, ◌<◌, ◌+◌, ◌^◌};
ghost use Rattle.gateway_connections.specs.Rows.{noted};

/// The places of the rows that may differ from what they were at the mark, from `first` to before
/// `end`.
#[derive(Clone, Copy)]
pub struct Changed {
    pub first: usize,
    pub end: usize,
    /// Some row closed since the mark, at whatever place.
    pub closed: bool,
}

impl Changed {
    /// No place.
    pub fn none() -> Changed
        ensures { result.end ≡ 0 }
    {
        Changed {
            first: usize::MAX,
            end: 0,
            closed: false,
        }
    }

    /// The row at the place may differ too.
    pub fn note(&mut self, place: usize)
        requires { place + 1 < 2 ^ 64 }
        ensures { self.new ≡ noted place self.old }
    {
        self.first = self.first.min(place);
        self.end = self.end.max(place + 1);
    }
}
