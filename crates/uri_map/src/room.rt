//! The limits of the options of one request: 255 bytes a value, 960 bytes in all.

ghost use Rattle.std.specs.Prelude.{◌≡◌, ◌≤◌};
ghost use Rattle.uri_map.specs.Steps.{option_view};
ghost use Rattle.uri_map.specs.Limits as limits;
ghost use Rattle.uri_map.specs.Scanning.{host_view, Leaves};
ghost use Rattle.uri_map.specs.Rooms as rooms;

use crate::authority::Named;
use crate::escapes::{Part, next_piece, value_len};
use crate::fault::UriFault;

/// The most bytes of a value of Uri-Host, Uri-Path or Uri-Query (RFC 7252, section 5.10).
pub(crate) const VALUE_LIMIT: usize = 255;

/// The most bytes that the options of a target take in a message.
pub(crate) const OPTIONS_LIMIT: usize = 960;

/// The number of Uri-Host.
pub(crate) const URI_HOST: u16 = 3;

/// What is left of the room for options, after one of the number.
#[derive(Clone, Copy)]
pub(crate) struct Room {
    number: u16,
    left: usize,
}

/// How many bytes extend the nibble of a number (RFC 7252, section 3.1).
fn extra(n: usize) -> usize
    ensures value { result ≡ limits.extra n }
    ensures small { result ≤ 2 }
{
    if n < 13 {
        0
    } else if n < 269 {
        1
    } else {
        2
    }
}

impl Room {
    /// The room after a further option with a value of so many bytes.
    #[tactic(auto, unfolding(crate::specs::Rooms::room_behind))]
    fn behind(self, number: u16, len: usize) -> Result<Room, UriFault>
        ensures { result ≡ rooms.room_behind number len self }
    {
        if len > VALUE_LIMIT {
            return Err(UriFault::TooLong);
        }
        let step = usize::from(number).saturating_sub(usize::from(self.number));
        let taken = 1 + extra(step) + extra(len) + len;
        if taken > self.left {
            return Err(UriFault::TooLong);
        }
        Ok(Room {
            number,
            left: self.left - taken,
        })
    }
}

/// What is left of all the room after the option of a host.
pub(crate) fn behind_host(host: &Named<'_>) -> Result<Room, UriFault>
    ensures { result ≡ rooms.host_room (host_view host.now) rooms.all_room }
{
    let room = Room {
        number: 0,
        left: OPTIONS_LIMIT,
    };
    match host {
        Named::Name(name) => room.behind(URI_HOST, name.len()),
        Named::V4(_) => Ok(room),
        Named::V6(_) => Ok(room),
    }
}

/// What is left after a further option, where something was left before.
fn further(room: Result<Room, UriFault>, number: u16, len: usize) -> Result<Room, UriFault>
    ensures { result ≡ rooms.further_room number len room }
{
    match room {
        Ok(room) => room.behind(number, len),
        Err(fault) => Err(fault),
    }
}

/// What is left of the room after the options of a part, in which each piece stands for a value.
/// A piece that doesn't is told before want of room.
pub(crate) fn behind_part(
    part: Part,
    text: Option<&[u8]>,
    before: Result<Room, UriFault>,
) -> Result<Result<Room, UriFault>, UriFault>
    ensures { Leaves result part (option_view text.entry) before }
{
    let mut room = before;
    let mut left = text;
    'each: while let Some((piece, next)) = next_piece(part, left) {
        let len = value_len(part, piece)?;
        room = further(room, part.number(), len);
        left = next;
    }
    Ok(room)
}
