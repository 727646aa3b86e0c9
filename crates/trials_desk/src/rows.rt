//! What clients send, what becomes of their sessions, and what is settled.

use crate::client::Client;
use crate::device::Manner;
use gateway_desk::Report;
use sessions::{End, Point};

/// Clients of two threads, and what one journal settles in the end.
pub struct Trial {
    pub manner: Manner,
    /// by how many milliseconds the clock goes on at each reading
    pub step: u64,
    pub one: &'static [Client],
    pub two: &'static [Client],
    pub settled: Report,
}

/// A GET of the light of s.example.com.
const GET: &[u8] = b"GET /hc/coap://s.example.com/light HTTP/1.1\r\nHost: p\r\n\r\n";

/// A GET of another device's light.
const GET_OTHER: &[u8] = b"GET /hc/coap://192.0.2.9/light HTTP/1.1\r\nHost: p\r\n\r\n";

/// What a GET is answered while the light is on.
const IS_ON: &[u8] =
    b"HTTP/1.1 200 OK\r\nContent-Type: text/plain;charset=utf-8\r\nCache-Control: max-age=60\r\nContent-Length: 2\r\n\r\non";

/// What a GET is answered while the light is off.
const IS_OFF: &[u8] =
    b"HTTP/1.1 200 OK\r\nContent-Type: text/plain;charset=utf-8\r\nCache-Control: max-age=60\r\nContent-Length: 3\r\n\r\noff";

/// A PUT whose body comes once the client is told to go on, in two pieces, and a GET that comes
/// with it.
const PUT_AND_GET: &[&[u8]] = &[
    b"PUT /hc/coap://s.example.com/light HTTP/1.1\r\nHost: p\r\nContent-Length: 3\r\nExpect: 100-continue\r\n\r\n",
    b"o",
    b"ffGET /hc/coap://s.example.com/light HTTP/1.1\r\nHost: p\r\n\r\n",
];

/// What that is answered.
const DONE_AND_OFF: &[u8] =
    b"HTTP/1.1 100 Continue\r\n\r\nHTTP/1.1 204 No Content\r\n\r\nHTTP/1.1 200 OK\r\nContent-Type: text/plain;charset=utf-8\r\nCache-Control: max-age=60\r\nContent-Length: 3\r\n\r\noff";

/// What is answered for a device that says nothing.
const TOO_LATE: &[u8] =
    b"HTTP/1.1 504 Gateway Timeout\r\nHC-Cause: timeout 2\r\nContent-Length: 0\r\n\r\n";

/// Two sessions at once, of which the one that asks the first device is answered last.
static CROSSED: Trial = Trial {
    manner: Manner::FirstLast,
    step: 0,
    one: &[Client {
        sends: &[GET],
        held_at: None,
        is_gone: false,
        gets: IS_ON,
        end: End::Finished,
    }],
    two: &[Client {
        sends: &[GET_OTHER],
        held_at: None,
        is_gone: false,
        gets: IS_ON,
        end: End::Finished,
    }],
    settled: Report {
        asks: 2,
        answers: 2,
    },
};

pub fn crossed() -> &'static Trial {
    &CROSSED
}

/// Two sessions at once, each of which asks a device of its own.
static APART: Trial = Trial {
    manner: Manner::Prompt,
    step: 3_000,
    one: &[Client {
        sends: &[GET],
        held_at: None,
        is_gone: false,
        gets: IS_ON,
        end: End::Finished,
    }],
    two: &[Client {
        sends: &[GET_OTHER],
        held_at: None,
        is_gone: false,
        gets: IS_ON,
        end: End::Finished,
    }],
    settled: Report {
        asks: 2,
        answers: 2,
    },
};

pub fn apart() -> &'static Trial {
    &APART
}

/// A session that asks twice.
static TWICE: Trial = Trial {
    manner: Manner::Prompt,
    step: 3_000,
    one: &[Client {
        sends: PUT_AND_GET,
        held_at: None,
        is_gone: false,
        gets: DONE_AND_OFF,
        end: End::Finished,
    }],
    two: &[],
    settled: Report {
        asks: 2,
        answers: 2,
    },
};

pub fn twice() -> &'static Trial {
    &TWICE
}

/// The light is put out, and who is told so finds it out.
static TOLD: Trial = Trial {
    manner: Manner::Prompt,
    step: 0,
    one: &[
        Client {
            sends: PUT_AND_GET,
            held_at: None,
            is_gone: false,
            gets: DONE_AND_OFF,
            end: End::Finished,
        },
        Client {
            sends: &[GET],
            held_at: None,
            is_gone: false,
            gets: IS_OFF,
            end: End::Finished,
        },
    ],
    two: &[],
    settled: Report {
        asks: 3,
        answers: 3,
    },
};

pub fn told() -> &'static Trial {
    &TOLD
}

/// Two sessions read the light one after the other, of a device that answers once.
static STORED: Trial = Trial {
    manner: Manner::Once,
    step: 0,
    one: &[
        Client {
            sends: &[GET],
            held_at: None,
            is_gone: false,
            gets: IS_ON,
            end: End::Finished,
        },
        Client {
            sends: &[GET],
            held_at: None,
            is_gone: false,
            gets: IS_ON,
            end: End::Finished,
        },
    ],
    two: &[],
    settled: Report {
        asks: 2,
        answers: 2,
    },
};

pub fn stored() -> &'static Trial {
    &STORED
}

/// Gates say no after an ask and after its answer; a client goes away; others are served as ever.
static HELD: Trial = Trial {
    manner: Manner::Prompt,
    step: 0,
    one: &[
        Client {
            sends: &[GET],
            held_at: Some(Point::Asked),
            is_gone: false,
            gets: b"",
            end: End::Held,
        },
        Client {
            sends: &[GET],
            held_at: None,
            is_gone: false,
            gets: IS_ON,
            end: End::Finished,
        },
    ],
    two: &[
        Client {
            sends: &[GET],
            held_at: Some(Point::Answered),
            is_gone: false,
            gets: b"",
            end: End::Held,
        },
        Client {
            sends: &[GET],
            held_at: None,
            is_gone: true,
            gets: b"",
            end: End::WriteFault,
        },
    ],
    settled: Report {
        asks: 4,
        answers: 3,
    },
};

pub fn held() -> &'static Trial {
    &HELD
}

/// A device says nothing while time goes on.
static LATE: Trial = Trial {
    manner: Manner::Silent,
    step: 50_000,
    one: &[Client {
        sends: &[GET],
        held_at: None,
        is_gone: false,
        gets: TOO_LATE,
        end: End::Finished,
    }],
    two: &[],
    settled: Report {
        asks: 1,
        answers: 1,
    },
};

pub fn late() -> &'static Trial {
    &LATE
}

/// The first datagram is lost on its way to the device, which answers the copy.
static LOST: Trial = Trial {
    manner: Manner::LosesFirst,
    step: 3_000,
    one: &[Client {
        sends: &[GET],
        held_at: None,
        is_gone: false,
        gets: IS_ON,
        end: End::Finished,
    }],
    two: &[],
    settled: Report {
        asks: 1,
        answers: 1,
    },
};

pub fn lost() -> &'static Trial {
    &LOST
}

/// The desk is shut while a session waits: the wire fails some turns after it asked.
static SHUT: Trial = Trial {
    manner: Manner::Breaks,
    step: 0,
    one: &[Client {
        sends: &[GET],
        held_at: None,
        is_gone: false,
        gets: b"",
        end: End::Closed,
    }],
    two: &[],
    settled: Report {
        asks: 1,
        answers: 0,
    },
};

pub fn shut() -> &'static Trial {
    &SHUT
}

/// A client that says nothing and goes.
static LEAVER: Client = Client {
    sends: &[],
    held_at: None,
    is_gone: false,
    gets: b"",
    end: End::Finished,
};

pub fn leaver() -> &'static Client {
    &LEAVER
}

/// A client that speaks another protocol.
static STRANGER: Client = Client {
    sends: &[b"\x16\x03\x01"],
    held_at: None,
    is_gone: false,
    gets: b"HTTP/1.1 400 Bad Request\r\nHC-Cause: bad-http 601\r\nConnection: close\r\nContent-Length: 0\r\n\r\n",
    end: End::Finished,
};

pub fn stranger() -> &'static Client {
    &STRANGER
}
