//! The inputs that lines give.

use command_line::{Event, Line};
use gateway_world::{Happening, Input};

/// The input that a line gives.
pub fn input_of(line: &Line) -> Input<'_> {
    let happening = match &line.event {
        Event::Open => Happening::Open,
        Event::Bytes(connection, bytes) => Happening::Bytes(*connection, bytes),
        Event::Datagram(peer, bytes) => Happening::Datagram(*peer, bytes),
        Event::Tick => Happening::Tick,
        Event::Close(connection) => Happening::Close(*connection),
        Event::Rotate => Happening::Rotate,
    };
    Input {
        moment: line.moment,
        word: line.word,
        happening,
    }
}
