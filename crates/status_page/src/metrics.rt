//! The figures, for programs that watch a gateway, in the text format of Prometheus (version
//! 0.0.4).

use crate::samples::{Kind, Text};
use crate::status::{Device, Phase, Responses, Status};
use limits::{MAX_CONNECTIONS, MAX_ENTRIES, MAX_EXCHANGES, MAX_JOURNAL_LEN, MAX_STORED};
use std::alloc::{AllocError, Global};

impl Text {
    /// Adds a figure that is alone in its family.
    fn add(
        &mut self,
        name: &'static str,
        kind: Kind,
        help: &'static str,
        value: u64,
    ) -> Result<(), AllocError> {
        self.family(name, kind, help)?;
        self.figure(name, value)
    }

    /// Adds a figure that goes up and down.
    fn gauge(
        &mut self,
        name: &'static str,
        help: &'static str,
        value: u64,
    ) -> Result<(), AllocError> {
        self.add(name, Kind::Gauge, help, value)
    }

    /// Adds a figure that goes up.
    fn counter(
        &mut self,
        name: &'static str,
        help: &'static str,
        value: u64,
    ) -> Result<(), AllocError> {
        self.add(name, Kind::Counter, help, value)
    }

    /// Adds what there is of the gateway as a whole.
    fn add_gateway(&mut self, status: &Status) -> Result<(), AllocError> {
        self.gauge(
            "hcproxy_start_time_seconds",
            "When the gateway started, in seconds since 1970 began.",
            status.started,
        )?;
        self.gauge(
            "hcproxy_ready",
            "1 while requests are taken, 0 while the journal is turned over.",
            u64::from(status.phase == Phase::Serving),
        )?;
        self.gauge(
            "hcproxy_stored_responses",
            "Responses of devices that are stored.",
            status.stored,
        )?;
        self.gauge(
            "hcproxy_stored_responses_max",
            "How many may be stored.",
            MAX_STORED as u64,
        )?;
        self.counter(
            "hcproxy_datagrams_sent_total",
            "Datagrams that were sent to devices.",
            status.sent,
        )?;
        self.counter(
            "hcproxy_datagrams_received_total",
            "Datagrams that came.",
            status.heard,
        )
    }

    /// Adds what there is of connections and exchanges.
    fn add_connections(&mut self, status: &Status) -> Result<(), AllocError> {
        let connections = &status.connections;
        self.gauge(
            "hcproxy_connections",
            "Connections of clients that are open.",
            connections.open,
        )?;
        self.gauge(
            "hcproxy_connections_max",
            "How many may be open.",
            MAX_CONNECTIONS as u64,
        )?;
        self.counter(
            "hcproxy_connections_opened_total",
            "Connections that were opened.",
            connections.opened,
        )?;
        self.counter(
            "hcproxy_connections_refused_total",
            "Connections that were turned away.",
            connections.refused,
        )?;
        self.gauge(
            "hcproxy_requests_waiting",
            "Requests that wait for their answer.",
            connections.asking,
        )?;
        self.gauge(
            "hcproxy_exchanges",
            "Exchanges with devices that are open.",
            status.exchanges,
        )?;
        self.gauge(
            "hcproxy_exchanges_max",
            "How many may be open.",
            MAX_EXCHANGES as u64,
        )
    }

    /// Adds how full the journal is.
    fn add_journal(&mut self, status: &Status) -> Result<(), AllocError> {
        let journal = &status.journal;
        self.gauge(
            "hcproxy_journal_entries",
            "Entries of the journal.",
            journal.entries,
        )?;
        self.gauge(
            "hcproxy_journal_entries_max",
            "How many it may have.",
            MAX_ENTRIES,
        )?;
        self.gauge(
            "hcproxy_journal_bytes",
            "Bytes that the entries of the journal count.",
            journal.bytes,
        )?;
        self.gauge(
            "hcproxy_journal_bytes_max",
            "How many they may count.",
            MAX_JOURNAL_LEN,
        )?;
        self.counter(
            "hcproxy_journals_turned_over_total",
            "Journals that were full and gave way to the next.",
            journal.turned,
        )
    }

    /// Adds how many answers were given.
    fn add_responses(&mut self, responses: &Responses) -> Result<(), AllocError> {
        let name = "hcproxy_responses_total";
        let help = "Answers to clients, by the class of their status.";
        self.family(name, Kind::Counter, help)?;
        let classes = &responses.classes;
        self.labelled(name, "class", "1xx", classes.informational)?;
        self.labelled(name, "class", "2xx", classes.success)?;
        self.labelled(name, "class", "3xx", classes.redirection)?;
        self.labelled(name, "class", "4xx", classes.client_error)?;
        self.labelled(name, "class", "5xx", classes.server_error)?;
        self.counter(
            "hcproxy_kept_responses_total",
            "Answers that give a response of a device that was stored.",
            responses.kept,
        )?;
        let name = "hcproxy_own_responses_total";
        let help = "Answers of the gateway's own, by the kind of their HC-Cause.";
        self.family(name, Kind::Counter, help)?;
        'causes: for (cause, count) in &responses.causes {
            let cause = cause.to_string(self.alloc)?;
            self.labelled(name, "cause", cause.as_str(), *count)?;
        }
        Ok(())
    }

    /// Adds a figure of each device.
    fn add_devices(
        &mut self,
        name: &'static str,
        kind: Kind,
        help: &'static str,
        devices: &[Named<'_>],
        figure: Figure,
    ) -> Result<(), AllocError> {
        self.family(name, kind, help)?;
        'each: for named in devices {
            if let Some(value) = figure.of(named.device) {
                self.labelled(name, "device", named.name.as_str(), value)?;
            }
        }
        Ok(())
    }

    /// Adds the figures of devices.
    fn add_all_devices(&mut self, devices: &[Named<'_>]) -> Result<(), AllocError> {
        self.add_devices(
            "hcproxy_device_exchanges",
            Kind::Gauge,
            "Exchanges with the device that are open.",
            devices,
            Figure::Open,
        )?;
        self.add_devices(
            "hcproxy_device_exchanges_queued",
            Kind::Gauge,
            "Exchanges whose request waits for its turn at the device.",
            devices,
            Figure::Queued,
        )?;
        self.add_devices(
            "hcproxy_device_responses_total",
            Kind::Counter,
            "Answers to requests for the device, stored ones and the gateway's own among them.",
            devices,
            Figure::Answers,
        )?;
        self.add_devices(
            "hcproxy_device_timeouts_total",
            Kind::Counter,
            "Answers that tell that the device didn't reply in time.",
            devices,
            Figure::Timeouts,
        )?;
        self.add_devices(
            "hcproxy_device_last_response_time_seconds",
            Kind::Gauge,
            "When a request for the device was answered last, in seconds since 1970 began.",
            devices,
            Figure::Last,
        )
    }
}

/// A figure of a device.
#[derive(Clone, Copy)]
enum Figure {
    Open,
    Queued,
    Answers,
    Timeouts,
    Last,
}

impl Figure {
    /// What it is of a device, where it is known.
    fn of(self, device: &Device) -> Option<u64> {
        match self {
            Figure::Open => Some(device.open),
            Figure::Queued => Some(device.queued),
            Figure::Answers => Some(device.answers),
            Figure::Timeouts => Some(device.timeouts),
            Figure::Last => match &device.last {
                Some(last) => Some(last.at),
                None => None,
            },
        }
    }
}

/// A device, and how its address is written.
#[derive(Drop)]
struct Named<'a> {
    device: &'a Device,
    name: String,
}

/// The devices, and how their addresses are written.
fn with_names(alloc: Global, devices: &[Device]) -> Result<Vec<Named<'_>>, AllocError> {
    let mut all = Vec::with_capacity(alloc, devices.len())?;
    'each: for device in devices {
        let name = device.peer.to_string(alloc)?;
        all.push(Named { device, name })?;
    }
    Ok(all)
}

/// The text of all figures.
pub fn metrics(alloc: Global, status: &Status) -> Result<Vec<u8>, AllocError> {
    let mut figures = Text {
        alloc,
        bytes: Vec::new(alloc),
    };
    figures.add_gateway(status)?;
    figures.add_connections(status)?;
    figures.add_journal(status)?;
    figures.add_responses(&status.responses)?;
    let devices = with_names(alloc, &status.devices)?;
    figures.add_all_devices(&devices)?;
    let Text { alloc: _, bytes } = figures;
    Ok(bytes)
}
