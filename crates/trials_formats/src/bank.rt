//! Banks of closures.

ghost use Rattle.transformers.specs.Keeps.{AllKeep};
ghost use Rattle.trials_formats.specs.Formats.{FormatsHold, FormatsTake};

use crate::telling::{check, is_written};
use media_map::Form;
use std::alloc::Global;
use transformers::{
    ApplyFault, Bank, Call, Refused, Relation, Stored, cbor_json, json_cbor, octets_hex, store,
};

struct Formats;

impl Relation for Formats {
    ghost use Rattle.trials_formats.specs.Formats.{FormatsHold, FormatsTake};

    ghost holds = { FormatsHold };

    ghost takes = { FormatsTake };
}

const CBOR: Form = Form::Format(60);

const JSON: Form = Form::Format(50);

const OCTETS: Form = Form::Format(42);

const TEXT: Form = Form::Format(0);

/// The output of the bank, which has the pair and takes the input.
fn made(bank: &Bank<Formats>, from: &Form, to: &Form, input: &[u8]) -> Option<Vec<u8>>
    requires keeps { AllKeep FormatsHold FormatsTake bank.now.stored.items }
{
    bank.apply(from, to, input).ok()?
}

fn makes(bank: &Bank<Formats>, from: &Form, to: &Form, input: &[u8], wanted: &[u8]) -> bool
    requires keeps { AllKeep FormatsHold FormatsTake bank.now.stored.items }
{
    match made(bank, from, to, input) {
        Some(output) => output.as_slice() == wanted,
        None => false,
    }
}

/// The length of the output, where one is made.
fn made_length(bank: &Bank<Formats>, from: &Form, to: &Form, input: &[u8]) -> Option<usize>
    requires keeps { AllKeep FormatsHold FormatsTake bank.now.stored.items }
{
    let output = made(bank, from, to, input)?;
    Some(output.len())
}

fn fault_of(bank: &Bank<Formats>, from: &Form, to: &Form, input: &[u8]) -> Option<ApplyFault>
    requires keeps { AllKeep FormatsHold FormatsTake bank.now.stored.items }
{
    bank.apply(from, to, input).err()
}

/// The bank has no such pair, which is no fault.
fn has_none(bank: &Bank<Formats>, from: &Form, to: &Form, input: &[u8]) -> bool
    requires keeps { AllKeep FormatsHold FormatsTake bank.now.stored.items }
{
    matches!(bank.apply(from, to, input), Ok(None))
}

fn count_of_routes(bank: &Bank<Formats>) -> Option<usize> {
    let routes = bank.routes().ok()?;
    Some(routes.as_slice().len())
}

/// A map with one pair, from CBOR to JSON and back.
fn converts(bank: &Bank<Formats>) -> bool
    requires keeps { AllKeep FormatsHold FormatsTake bank.now.stored.items }
{
    let (item, json) = (b"\xa1\x61\x61\x01", b"{\"a\":1}");
    makes(bank, &CBOR, &JSON, item, json) && makes(bank, &JSON, &CBOR, json, item)
}

/// A number that isn't whole is refused.
fn refuses_half(bank: &Bank<Formats>) -> bool
    requires keeps { AllKeep FormatsHold FormatsTake bank.now.stored.items }
{
    fault_of(bank, &CBOR, &JSON, b"\xf9\x3c\x00") == Some(ApplyFault::Refused)
}

#[test]
fn several_kinds(rt: HostRuntime) {
    let alloc: Global = rt.alloc();
    let mut all: Vec<Stored<Formats>> = Vec::new(alloc);
    let to_json: Call = Box::new(alloc, move |x: &[u8]| cbor_json(alloc, x)).expect(&rt, "memory");
    store(&mut all, Stored::new(CBOR, JSON, to_json)).expect(&rt, "memory");
    let to_cbor: Call = Box::new(alloc, move |x: &[u8]| json_cbor(alloc, x)).expect(&rt, "memory");
    store(&mut all, Stored::new(JSON, CBOR, to_cbor)).expect(&rt, "memory");
    let bank = Bank::new(all);

    check(&rt, "two routes", count_of_routes(&bank) == Some(2));
    check(&rt, "a map", converts(&bank));
    check(&rt, "half", refuses_half(&bank));
    check(&rt, "no pair", has_none(&bank, &JSON, &TEXT, b"1"));
}

/// So many octets are the most that make an output, of this length.
fn is_most(alloc: Global, bank: &Bank<Formats>, count: usize, length: usize) -> Option<bool>
    requires keeps { AllKeep FormatsHold FormatsTake bank.now.stored.items }
{
    let octets = vec![in alloc; 7; count].ok()?;
    let more = vec![in alloc; 7; count.checked_add(1)?].ok()?;
    let made = made_length(bank, &OCTETS, &TEXT, &octets);
    let fault = fault_of(bank, &OCTETS, &TEXT, &more);
    Some(made == Some(length) && fault == Some(ApplyFault::TooLarge))
}

#[test]
fn largest(rt: HostRuntime) {
    let alloc: Global = rt.alloc();
    let mut all: Vec<Stored<Formats>> = Vec::new(alloc);
    let to_hex: Call = Box::new(alloc, move |x: &[u8]| octets_hex(alloc, x)).expect(&rt, "memory");
    store(&mut all, Stored::new(OCTETS, TEXT, to_hex)).expect(&rt, "memory");
    let no_memory: Call = Box::new(alloc, |_: &[u8]| Err(Refused::Memory)).expect(&rt, "memory");
    store(&mut all, Stored::new(CBOR, JSON, no_memory)).expect(&rt, "memory");
    let bank = Bank::new(all);

    check(
        &rt,
        "the most",
        is_most(alloc, &bank, 32_768, 65_536) == Some(true),
    );
    check(
        &rt,
        "memory",
        fault_of(&bank, &CBOR, &JSON, b"\x01") == Some(ApplyFault::Memory),
    );
}

static FAULTS: [(ApplyFault, &str); 3] = [
    (ApplyFault::Refused, "content refused"),
    (ApplyFault::TooLarge, "output too large"),
    (ApplyFault::Memory, "out of memory"),
];

#[test]
fn faults_in_words(rt: HostRuntime) {
    for (fault, words) in &FAULTS {
        check(&rt, *words, is_written(rt.alloc(), fault, words));
    }
    check(
        &rt,
        "content",
        is_written(rt.alloc(), &Refused::Content, "content refused"),
    );
    check(
        &rt,
        "memory",
        is_written(rt.alloc(), &Refused::Memory, "out of memory"),
    );
}
