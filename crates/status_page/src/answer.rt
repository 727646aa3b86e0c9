//! The answers of the window.

ghost use Rattle.std.specs.Prelude.{◌≡◌, ◌<◌, [], true, is_some, IfOk};
ghost use Rattle.http_edge.specs.Answers.{body_bytes};
ghost use Rattle.http_edge.specs.Edges.{item};
ghost use Rattle.status_page.specs.Views.{asks_head, code_of as code_for, health_code, journal_code, view_asked};

use crate::asked::{Refusal, View, is_head, view_of};
use crate::excerpt::Excerpt;
use crate::metrics::metrics;
use crate::people::people;
use crate::status::{Phase, Status};
use http_edge::{Body, Field, HttpAnswer, Incoming, Memory};
use httpdate::HttpDate;
use journal_picture::{PictureFault, draw_part};
use std::alloc::{AllocError, Global};

/// What the figures are (the text form of Prometheus).
const FIGURES: &str = "text/plain; version=0.0.4; charset=utf-8";

const PLAIN: &str = "text/plain; charset=utf-8";

const HTML: &str = "text/html; charset=utf-8";

/// A page loads nothing, and has its style in itself.
const POLICY: &str = "default-src 'none'; style-src 'unsafe-inline'";

/// The status code that tells whether requests are taken.
fn health_code(phase: Phase) -> u16
    ensures { result ≡ health_code phase }
{
    match phase {
        Phase::Serving => 200,
        Phase::Turning | Phase::Stopping => 503,
    }
}

/// The status code of what is shown of the journal, which has it or hasn't.
fn journal_code(phase: Phase, has: bool) -> u16
    ensures { result ≡ journal_code phase has }
{
    match phase {
        Phase::Turning => 503,
        Phase::Serving | Phase::Stopping if has => 200,
        Phase::Serving | Phase::Stopping => 404,
    }
}

/// The status code of the answer.
fn code_of(asked: Result<View, Refusal>, phase: Phase, has: bool) -> u16
    ensures is { result ≡ code_for asked phase has }
    ensures digits { result < 1000 }
{
    match asked {
        Ok(View::Health) => health_code(phase),
        Ok(View::Journal(_) | View::Request(_)) => journal_code(phase, has),
        Ok(View::People | View::Metrics) => 200,
        Err(Refusal::Bad(kind)) => kind.status(),
        Err(Refusal::Method) => 405,
        Err(Refusal::Path) => 404,
    }
}

/// The phrase of a status code that `code_of` gives.
fn phrase_of(code: u16) -> &'static str {
    match code {
        200 => "OK",
        400 => "Bad Request",
        404 => "Not Found",
        405 => "Method Not Allowed",
        413 => "Content Too Large",
        501 => "Not Implemented",
        _ => "Service Unavailable",
    }
}

/// What `/health` says.
fn health(phase: Phase) -> &'static str {
    match phase {
        Phase::Serving => "ok\n",
        Phase::Turning => "the journal is turned over: who comes now waits until that is done\n",
        Phase::Stopping => "the gateway stops\n",
    }
}

/// What a refusal says.
fn refusal(why: Refusal) -> &'static str {
    match why {
        Refusal::Bad(_) => "not an HTTP request that is taken here\n",
        Refusal::Method => "GET and HEAD alone are answered here\n",
        Refusal::Path => {
            "no such page: there are /, /health, /metrics, /journal, /journal?from=N and /journal/N\n"
        }
    }
}

/// What an answer has, and its media type.
#[derive(Drop)]
struct Content {
    media: &'static str,
    body: Vec<u8>,
    /// the entry of the journal at which to go on
    next: Option<u64>,
}

impl Content {
    fn new(media: &'static str, body: Vec<u8>) -> Content {
        Content {
            media,
            body,
            next: None,
        }
    }

    /// A text of the program.
    fn plain(alloc: Global, text: &'static str) -> Result<Content, AllocError> {
        Ok(Content::new(PLAIN, Vec::from_slice(alloc, text.as_bytes())?))
    }
}

/// What the answer has.
fn content_of(
    alloc: Global,
    asked: Result<View, Refusal>,
    status: &Status,
    excerpt: Option<&Excerpt>,
) -> Result<Content, AllocError> {
    match asked {
        Ok(View::People) => Ok(Content::new(HTML, people(alloc, status)?)),
        Ok(View::Metrics) => Ok(Content::new(FIGURES, metrics(alloc, status)?)),
        Ok(View::Health) => Content::plain(alloc, health(status.phase)),
        Ok(View::Journal(_) | View::Request(_)) if status.phase == Phase::Turning => {
            Content::plain(alloc, health(status.phase))
        }
        Ok(View::Journal(_)) => lines_in(alloc, excerpt),
        Ok(View::Request(_)) => picture_of(alloc, excerpt),
        Err(why) => Content::plain(alloc, refusal(why)),
    }
}

/// Lines of the journal.
fn lines_in(alloc: Global, excerpt: Option<&Excerpt>) -> Result<Content, AllocError> {
    let Some(excerpt) = excerpt else {
        return Content::plain(alloc, "the journal has fewer entries\n");
    };
    let mut content = Content::new(PLAIN, Vec::from_slice(alloc, &excerpt.lines)?);
    content.next = Some(excerpt.next);
    Ok(content)
}

/// The picture of what became of a request; its lines, where they can't be drawn.
fn picture_of(alloc: Global, excerpt: Option<&Excerpt>) -> Result<Content, AllocError> {
    let Some(excerpt) = excerpt else {
        let text = "the journal has no such request, and none that was answered by that entry\n";
        return Content::plain(alloc, text);
    };
    match draw_part(alloc, &excerpt.lines) {
        Ok(page) => Ok(Content::new(HTML, Vec::from_slice(alloc, page.as_slice())?)),
        Err(PictureFault::Memory) => Err(AllocError),
        Err(_) => Ok(Content::new(PLAIN, Vec::from_slice(alloc, &excerpt.lines)?)),
    }
}

/// Adds a field.
fn add(
    alloc: Global,
    fields: &mut Vec<Field>,
    name: &'static str,
    value: &[u8],
) -> Result<(), AllocError> {
    let value = Vec::from_slice(alloc, value)?;
    fields.push(Field { name, value })?;
    Ok(())
}

/// The fields of an answer at this moment.
fn fields_of(
    alloc: Global,
    asked: Result<View, Refusal>,
    content: &Content,
    now: u64,
) -> Result<Vec<Field>, AllocError> {
    let mut fields = Vec::new(alloc);
    let length = content.body.len().to_string(alloc)?;
    if let Ok(date) = HttpDate::from_unix_secs(now) {
        add(alloc, &mut fields, "Date", &date.to_bytes())?;
    }
    add(alloc, &mut fields, "Content-Type", content.media.as_bytes())?;
    add(alloc, &mut fields, "Content-Length", length.as_bytes())?;
    add(alloc, &mut fields, "Cache-Control", b"no-store")?;
    add(alloc, &mut fields, "X-Content-Type-Options", b"nosniff")?;
    add_own_fields(alloc, &mut fields, asked, content)?;
    add(alloc, &mut fields, "Connection", b"close")?;
    Ok(fields)
}

/// Adds the fields that not every answer has.
fn add_own_fields(
    alloc: Global,
    fields: &mut Vec<Field>,
    asked: Result<View, Refusal>,
    content: &Content,
) -> Result<(), AllocError> {
    if let Some(next) = content.next {
        let link = format!(in alloc; "</journal?from={next}>; rel=\"next\"")?;
        add(alloc, fields, "Link", link.as_bytes())?;
    }
    match asked {
        Ok(View::People | View::Request(_)) => {
            add(alloc, fields, "Content-Security-Policy", POLICY.as_bytes())
        }
        Err(Refusal::Method) => add(alloc, fields, "Allow", b"GET, HEAD"),
        _ => Ok(()),
    }
}

/// The answer to what came in; the connection is closed after it. An answer to a HEAD has no body,
/// and the Content-Length of the answer to a GET. `excerpt` is what the journal has of what is
/// asked for, if it has that.
pub fn answer_of(
    alloc: Global,
    came: &Incoming,
    status: &Status,
    excerpt: Option<&Excerpt>,
) -> Result<HttpAnswer, Memory>
    ensures code { IfOk result (λ a. a.status
        ≡ code_for (view_asked (item came.now)) status.now.phase (is_some excerpt.entry)) }
    ensures digits { IfOk result (λ a. a.status < 1000) }
    ensures head { asks_head (item came.now) ≡ true
        → IfOk result (λ a. body_bytes a.body ≡ []) }
{
    let asked = view_of(came);
    let code = code_of(asked, status.phase, excerpt.is_some());
    let content = content_of(alloc, asked, status, excerpt)?;
    let fields = fields_of(alloc, asked, &content, status.at)?;
    let Content {
        media: _,
        body,
        next: _,
    } = content;
    let body = if is_head(came) {
        Body::Empty
    } else {
        Body::Owned(body)
    };
    Ok(HttpAnswer {
        status: code,
        phrase: phrase_of(code),
        fields,
        body,
    })
}
