//! Where things stand on the page.

ghost use Rattle.std.specs.Prelude.{◌<◌, ◌^◌};

use crate::entry::Event;
use crate::label::Label;

/// Where things stand, in pixels from the left.
#[derive(Clone, Copy)]
pub(crate) struct Layout {
    /// The first connection.
    pub(crate) first: u32,
    /// How many connections have a line of their own.
    pub(crate) clients: u32,
    /// How many devices have one.
    devices: u64,
    /// How wide the words between the clients and the gateway are.
    near: u64,
    /// How wide those between the gateway and the devices are.
    far: u64,
    /// How far the lines of devices are apart.
    apart: u64,
    /// Where the lines end, from the top.
    pub(crate) bottom: u64,
}

/// Where the lines begin, from the top.
pub(crate) const TOP: u64 = 88;

impl Layout {
    /// Before any row is placed: there is room for the names.
    pub(crate) fn new(first: u32, clients: u32, devices: &[&str]) -> Layout {
        let mut apart: u64 = 180;
        'device: for device in devices {
            apart = apart.max((device.len() as u64).saturating_mul(8).saturating_add(40));
        }
        Layout {
            first,
            clients,
            devices: devices.len() as u64,
            near: 140,
            far: 180,
            apart,
            bottom: TOP + 40,
        }
    }

    /// Places a row below the others, and makes room for its words.
    pub(crate) fn place(&mut self, label: &mut Label<'_>) {
        let width = label.width();
        let entry = &label.row.entry;
        if entry.is_far() {
            self.far = self.far.max(width.saturating_add(56));
        } else {
            self.near = self.near.max(width.saturating_add(72));
        }
        let (above, below) = if is_slight(&entry.event) {
            (15, 15)
        } else {
            (28, label.depth())
        };
        label.top = self.bottom.saturating_add(above);
        self.bottom = label.top.saturating_add(below);
    }

    /// Where the line of a connection stands.
    pub(crate) fn client(self, connection: u32) -> u64
        ensures { result < 2 ^ 40 }
    {
        210 + 92 * u64::from(connection.saturating_sub(self.first))
    }

    /// Where the line of the last connection stands, after which the words begin.
    pub(crate) fn last_client(self) -> u64
        ensures { result < 2 ^ 40 }
    {
        210 + 92 * u64::from(self.clients.saturating_sub(1))
    }

    /// Where the gateway's line stands.
    pub(crate) fn gateway(self) -> u64 {
        self.near.saturating_add(self.last_client())
    }

    /// Where the line of a device stands.
    pub(crate) fn device(self, device: u64) -> u64 {
        self.gateway()
            .saturating_add(self.far)
            .saturating_add(self.apart.saturating_mul(device))
    }

    /// How wide the picture is.
    pub(crate) fn width(self) -> u64 {
        self.device(self.devices.saturating_sub(1))
            .saturating_add(self.apart / 2)
            .saturating_add(16)
            .max(1110)
    }

    /// How high it is.
    pub(crate) fn height(self) -> u64 {
        self.bottom.saturating_add(104)
    }
}

/// Whether an entry takes little room: its words stand on its line.
pub(crate) fn is_slight(event: &Event<'_>) -> bool {
    matches!(
        event,
        Event::Opened(_) | Event::Shut(_) | Event::Passed | Event::Sealed
    )
}
