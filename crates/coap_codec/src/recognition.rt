//! Which options of a response are recognised, and what those that aren't allow (RFC 7252,
//! sections 4.2 and 5.4).

ghost use Rattle.std.specs.Prelude.{◌≡◌, ◌<◌, [], not, ◌&&◌, ◌||◌, false, true, IsTrue, if◌then◌else◌, slice_index_or, slice_set};
ghost use Rattle.std.specs.List.{list_all};
ghost use Rattle.coap_codec.specs.Spelling.{entry, entries, content};
ghost use Rattle.coap_codec.specs.Recognition.{is_defined, may_repeat, strays, may_pass, is_processable, is_forwardable, is_rejected};

use crate::message::Message;
use crate::number;
use crate::opt::Opt;
use crate::options::{Occurrence, definition, is_critical, is_unsafe};
use crate::uint::uint_of;

/// Whether the option is defined for responses, with a value that it may have there.
pub fn is_defined(o: &Opt) -> bool
    ensures test { result ≡ is_defined (entry o.now) }
    ensures small { IsTrue result → o.now.number < 64 }
{
    if o.number == number::BLOCK2 || o.number == number::BLOCK1 {
        // RFC 7959 section 2.2
        return o.value.len() <= 3 && uint_of(&o.value) % 8 != 7;
    }
    match definition(o.number) {
        Some(row) => row.in_response != Occurrence::Never && row.allows_len(o.value.len()),
        None => false,
    }
}

/// Whether each option of this number counts in a response.
fn may_repeat(o: &Opt) -> bool
    ensures { result ≡ may_repeat (entry o.now) }
{
    match definition(o.number) {
        Some(row) => row.in_response == Occurrence::Repeated,
        None => false,
    }
}

/// Whether the option is recognised after those whose numbers are marked; if so, its number is
/// marked too.
fn recognise(marks: &mut [bool; 64], o: &Opt) -> bool
    ensures recognised { result ≡ (is_defined (entry o.now)
        && (may_repeat (entry o.now) || not (slice_index_or marks.old o.now.number false))) }
    ensures marked { marks.new
        ≡ (if result then slice_set marks.old o.now.number true else marks.old) }
    ensures small { IsTrue result → o.now.number < 64 }
{
    if !is_defined(o) {
        return false;
    }
    let place = usize::from(o.number);
    if marks[place] && !may_repeat(o) {
        return false;
    }
    marks[place] = true;
    true
}

/// Whether an option of this number may be there although it is not recognised, in a message that
/// is forwarded or only processed.
fn may_pass(number: u16, forwarded: bool) -> bool
    ensures { result ≡ may_pass forwarded number }
{
    !is_critical(number) && !(forwarded && is_unsafe(number) && definition(number).is_none())
}

/// Whether every option that is not recognised may be there.
fn strays_may_pass(options: &[Opt], forwarded: bool) -> bool
    ensures { result
        ≡ list_all (λ o. may_pass forwarded o.number) (strays [] (entries options.now)) }
{
    let mut marks = [false; 64];
    'each: for o in options {
        let recognised = recognise(&mut marks, o);
        if !recognised && !may_pass(o.number, forwarded) {
            return false;
        }
    }
    true
}

/// Whether every critical option is recognised (section 5.4.1).
pub fn is_processable(options: &[Opt]) -> bool
    ensures { result ≡ is_processable (entries options.now) }
{
    strays_may_pass(options, false)
}

/// Whether what the options say can be passed on: each one that is not recognised may be left out,
/// since it is elective and, if the table does not have it, safe to forward (sections 5.4.1
/// to 5.4.3).
pub fn is_forwardable(options: &[Opt]) -> bool
    ensures { result ≡ is_forwardable (entries options.now) }
{
    strays_may_pass(options, true)
}

/// Whether the message is rejected as a response: its class is reserved, or it cannot be processed
/// (sections 4.2 and 5.4.1).
pub fn is_rejected(m: &Message) -> bool
    ensures { result ≡ is_rejected (content m.now) }
{
    let class = m.code / 32;
    class == 1 || class == 6 || class == 7 || !is_processable(&m.options)
}
