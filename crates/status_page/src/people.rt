//! The page for people. What came from strangers goes onto it as text alone, which is escaped.

use crate::status::{Device, Last, Phase, Responses, Status};
use httpdate::HttpDate;
use journal_picture::Page;
use limits::{MAX_CONNECTIONS, MAX_ENTRIES, MAX_EXCHANGES, MAX_JOURNAL_LEN, MAX_STORED};
use std::alloc::{AllocError, Global};
use std::fmt::Display;

/// What the page begins with.
const HEAD: &str = "<!DOCTYPE html>
<html lang=\"en\">
<head>
<meta charset=\"utf-8\">
<meta name=\"viewport\" content=\"width=device-width, initial-scale=1\">
<meta http-equiv=\"refresh\" content=\"5\">
<title>hcproxy</title>
<style>
body { font: 15px/1.5 system-ui, sans-serif; margin: 2em auto; max-width: 60em; padding: 0 1em;
  color: #222; background: #fff; }
h1 { font-size: 1.5em; margin: 0 0 .2em; }
h2 { font-size: 1.1em; margin: 1.6em 0 .4em; }
p { margin: .2em 0; }
.serving { color: #17652f; } .halted { color: #a3180c; font-weight: bold; }
table { border-collapse: collapse; width: 100%; }
th, td { text-align: left; padding: .25em .8em .25em 0; border-bottom: 1px solid #ddd; }
th { font-weight: 600; } td.n, th.n { text-align: right; font-variant-numeric: tabular-nums; }
.keys th { font-weight: normal; width: 20em; } td.when { white-space: nowrap; }
td.request { overflow-wrap: anywhere; width: 45%; } td a { color: inherit; }
meter { width: 12em; vertical-align: middle; } .foot { margin-top: 1.6em; }
@media (prefers-color-scheme: dark) { body { color: #ddd; background: #181818; }
  th, td { border-color: #444; } .serving { color: #6fcf8a; } .halted { color: #ff8577; } }
</style>
</head>
<body>
";

/// What it ends with.
const TAIL: &str =
    "<p class=\"foot\">Figures for programs: <a href=\"/metrics\">/metrics</a>; whether requests are taken:
<a href=\"/health\">/health</a>; what happened: <a href=\"/journal\">/journal</a>. This page is read anew every
five seconds.</p>
</body>
</html>
";

/// The page that is being written.
#[derive(Drop)]
struct Sheet {
    alloc: Global,
    page: Page,
}

impl Sheet {
    /// Writes what a value is shown as, escaped.
    fn shown<T: Display + Drop>(&mut self, value: T) -> Result<(), AllocError> {
        let text = value.to_string(self.alloc)?;
        self.page.text(text.as_bytes())
    }

    /// Writes how many there are of as many as there may be.
    fn part(&mut self, count: u64, most: u64) -> Result<(), AllocError> {
        self.shown(count)?;
        self.page.words(" of ")?;
        self.shown(most)
    }

    /// Writes how much of all is there, with a bar.
    fn meter(&mut self, count: u64, most: u64) -> Result<(), AllocError> {
        self.page.markup("<meter max=\"")?;
        self.shown(most)?;
        self.page.markup("\" value=\"")?;
        self.shown(count)?;
        self.page.markup("\"></meter> ")?;
        self.part(count, most)
    }

    /// Writes for how long something goes on, in the two largest units of it.
    fn time(&mut self, seconds: u64) -> Result<(), AllocError> {
        let (minutes, hours, days) = (seconds / 60, seconds / 3600, seconds / 86_400);
        let alloc = self.alloc;
        let text = if days > 0 {
            format!(in alloc; "{days} d {} h", hours % 24)?
        } else if hours > 0 {
            format!(in alloc; "{hours} h {} min", minutes % 60)?
        } else if minutes > 0 {
            format!(in alloc; "{minutes} min {} s", seconds % 60)?
        } else {
            format!(in alloc; "{seconds} s")?
        };
        self.page.text(text.as_bytes())
    }

    /// Writes a moment as a date, where it is one.
    fn date(&mut self, seconds: u64) -> Result<(), AllocError> {
        match HttpDate::from_unix_secs(seconds) {
            Ok(date) => self.page.text(&date.to_bytes()),
            Err(_) => self.shown(seconds),
        }
    }

    /// Begins a row with these words.
    fn row(&mut self, words: &'static str) -> Result<(), AllocError> {
        self.page.markup("<tr><th>")?;
        self.page.words(words)?;
        self.page.markup("</th><td>")
    }

    /// Ends a row.
    fn end_row(&mut self) -> Result<(), AllocError> {
        self.page.markup("</td></tr>\n")
    }

    /// Writes a row with a number.
    fn count(&mut self, words: &'static str, count: u64) -> Result<(), AllocError> {
        self.row(words)?;
        self.shown(count)?;
        self.end_row()
    }

    /// Writes a number that a row of several has.
    fn cell(&mut self, count: u64) -> Result<(), AllocError> {
        self.page.markup("<td class=\"n\">")?;
        self.shown(count)?;
        self.page.markup("</td>")
    }

    /// Writes whether requests are taken, and since when it runs.
    fn top(&mut self, status: &Status) -> Result<(), AllocError> {
        self.page.markup("<h1>hcproxy</h1>\n")?;
        self.page.markup(match status.phase {
            Phase::Serving => "<p class=\"serving\">takes requests</p>\n",
            Phase::Turning => {
                "<p class=\"halted\">turns its journal over: who comes now waits until that is done</p>\n"
            }
            Phase::Stopping => "<p class=\"halted\">stops</p>\n",
        })?;
        self.page.markup("<p>since ")?;
        self.date(status.started)?;
        self.page.words(", for ")?;
        self.time(status.at.saturating_sub(status.started))?;
        self.page.markup("</p>\n")
    }

    /// Writes what clients and devices do.
    fn traffic(&mut self, status: &Status) -> Result<(), AllocError> {
        let connections = &status.connections;
        self.page
            .markup("<h2>Clients and devices</h2>\n<table class=\"keys\">\n")?;
        self.row("connections")?;
        self.part(connections.open, MAX_CONNECTIONS as u64)?;
        self.end_row()?;
        self.count("opened since the start", connections.opened)?;
        self.count("turned away", connections.refused)?;
        self.count("requests that wait for their answer", connections.asking)?;
        self.row("exchanges with devices")?;
        self.part(status.exchanges, MAX_EXCHANGES as u64)?;
        self.end_row()?;
        self.row("stored responses")?;
        self.part(status.stored, MAX_STORED as u64)?;
        self.end_row()?;
        self.count("datagrams sent", status.sent)?;
        self.count("datagrams heard", status.heard)?;
        self.page.markup("</table>\n")
    }

    /// Writes how full the journal is.
    fn journal(&mut self, status: &Status) -> Result<(), AllocError> {
        self.page
            .markup("<h2>Journal</h2>\n<table class=\"keys\">\n")?;
        self.row("entries")?;
        self.meter(status.journal.entries, MAX_ENTRIES)?;
        self.end_row()?;
        self.row("size")?;
        self.meter(status.journal.bytes / 1000, MAX_JOURNAL_LEN / 1000)?;
        self.page.words(" kB")?;
        self.end_row()?;
        self.count("turned over before it", status.journal.turned)?;
        self.page.markup("</table>\n")
    }

    /// Writes how many answers were given.
    fn responses(&mut self, responses: &Responses) -> Result<(), AllocError> {
        let classes = &responses.classes;
        self.page
            .markup("<h2>Answers</h2>\n<table class=\"keys\">\n")?;
        self.count("2xx", classes.success)?;
        self.count("3xx", classes.redirection)?;
        self.count("4xx", classes.client_error)?;
        self.count("5xx", classes.server_error)?;
        self.count("of a device, and stored before", responses.kept)?;
        'each: for (cause, count) in &responses.causes {
            if *count > 0 {
                self.page.markup("<tr><th>the gateway's own, ")?;
                self.shown(*cause)?;
                self.page.markup("</th><td>")?;
                self.shown(*count)?;
                self.end_row()?;
            }
        }
        self.page.markup("</table>\n")
    }

    /// Writes the last answer of a device, and how long ago it was.
    fn last(&mut self, last: &Last, now: u64) -> Result<(), AllocError> {
        self.page.markup("<td class=\"n\">")?;
        self.shown(last.status)?;
        self.page.markup("</td><td class=\"when\">")?;
        self.time(now.saturating_sub(last.at))?;
        self.page.markup(" ago</td><td class=\"request\">")?;
        self.request(last)?;
        self.page.markup("</td>")
    }

    /// Writes a request, which leads to what became of it where the journal has that.
    fn request(&mut self, last: &Last) -> Result<(), AllocError> {
        let Some(ask) = last.ask else {
            return self.page.text(&last.request);
        };
        self.page.markup("<a href=\"/journal/")?;
        self.shown(ask)?;
        self.page.markup("\">")?;
        self.page.text(&last.request)?;
        self.page.markup("</a>")
    }

    /// Writes the row of a device.
    fn device(&mut self, device: &Device, now: u64) -> Result<(), AllocError> {
        self.page.markup("<tr><td>")?;
        self.shown(device.peer)?;
        self.page.markup("</td>")?;
        self.cell(device.open)?;
        self.cell(device.queued)?;
        self.cell(device.answers)?;
        self.cell(device.timeouts)?;
        match &device.last {
            Some(last) => self.last(last, now)?,
            None => self.page.markup("<td></td><td></td><td></td>")?,
        }
        self.page.markup("</tr>\n")
    }

    /// Writes what there is of each device.
    fn devices(&mut self, status: &Status) -> Result<(), AllocError> {
        self.page.markup(
            "<h2>Devices</h2>\n<table>\n<tr><th>address</th><th class=\"n\">open</th>\
             <th class=\"n\">waiting</th><th class=\"n\">answers</th>\
             <th class=\"n\">timeouts</th><th class=\"n\">last</th><th>when</th><th>request</th></tr>\n",
        )?;
        'each: for device in &status.devices {
            self.device(device, status.at)?;
        }
        self.page.markup("</table>\n")
    }
}

/// The page that tells people how the gateway does.
pub fn people(alloc: Global, status: &Status) -> Result<Vec<u8>, AllocError> {
    let mut sheet = Sheet {
        alloc,
        page: Page::new(alloc),
    };
    sheet.page.markup(HEAD)?;
    sheet.top(status)?;
    sheet.traffic(status)?;
    sheet.devices(status)?;
    sheet.responses(&status.responses)?;
    sheet.journal(status)?;
    sheet.page.markup(TAIL)?;
    Vec::from_slice(alloc, sheet.page.as_slice())
}
