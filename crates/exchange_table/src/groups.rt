//! Readers, those of each exchange together: so who waits for an exchange is found without going
//! through all.

ghost use Rattle.std.specs.Prelude.{◌≡◌, ◌≤◌, ◌<◌, ◌+◌, ◌∷◌, ◌++◌, [], List, None, true, IfSome, filter, length, nat_lt, not, vec_capacity, vec_len};
ghost use Rattle.std.specs.List.{AllByRecursion, position};
ghost use Rattle.exchange_model.specs.declared.kept.Reader.{Reader as Row};
ghost use Rattle.exchange_table.specs.Places.{RiseBy, IsOnlyAt, IsNowhere};
ghost use Rattle.exchange_table.specs.Groups.{AreGrouped, Ascend, IsFirstFrom, is_before, is_beside};
ghost use Rattle.exchange_table.specs.Readers.{ask_in, has_ask, opening_read, reads};

use exchange_model::Reader;

/// The place of the reader of this ask.
pub fn reader_place(readers: &[Reader], ask: u32) -> Option<usize>
    requires { RiseBy ask_in readers.now }
    ensures below { IfSome result (λ i. i < length readers.now) }
    ensures some { IfSome result (IsOnlyAt (has_ask ask) readers.now) }
    ensures none { result ≡ None → IsNowhere (has_ask ask) readers.now }
{
    let place = readers.partition_point(
        |reader: &Reader| -> bool
            ensures { result ≡ nat_lt reader.now.ask ask }
        { reader.ask < ask },
    );
    let reader = readers.get(place)?;
    if reader.ask == ask { Some(place) } else { None }
}

/// The first place of those who read what the entry with this number opened, or a later one.
fn first_from(groups: &[Reader], opening: u64) -> usize
    requires { Ascend opening_read groups.now }
    ensures { IsFirstFrom opening_read opening groups.now result }
{
    groups.partition_point(
        |reader: &Reader| -> bool
            ensures { result ≡ nat_lt reader.now.opening opening }
        { u64::from(reader.opening) < opening },
    )
}

/// The first place of one who reads something else.
fn first_beside(groups: &[Reader], opening: u32) -> Option<usize>
    ensures { result ≡ position (is_beside opening_read opening) groups.now }
{
    groups.iter().position(|reader| reader.opening != opening)
}

/// Those who wait for the exchange with this opening, where they stand first.
fn run_of(groups: &[Reader], opening: u32) -> &[Reader]
    requires order { Ascend opening_read groups.now }
    requires first { AllByRecursion (λ (r : Row). opening ≤ r.opening) groups.now }
    ensures { result.now ≡ filter (reads opening) groups.now }
{
    match first_beside(groups, opening) {
        Some(end) => &groups[..end],
        None => groups,
    }
}

/// Those who wait for the exchange with this opening.
pub fn group_of(groups: &[Reader], opening: u32) -> &[Reader]
    requires { Ascend opening_read groups.now }
    ensures { result.now ≡ filter (reads opening) groups.now }
{
    let first = first_from(groups, u64::from(opening));
    run_of(&groups[first..], opening)
}

/// The place after those who read what the entry with this number opened, or an earlier one. Who
/// reads the latest stands last.
fn place_after(groups: &[Reader], opening: u32) -> usize
    requires { Ascend opening_read groups.now }
    ensures { IsFirstFrom opening_read (opening + 1) groups.now result }
{
    if let Some(last) = groups.last() {
        if last.opening <= opening {
            return groups.len();
        }
    }
    first_from(groups, u64::from(opening) + 1)
}

/// Puts the reader after those who wait for the same exchange, for which there is a place.
pub fn put_last(groups: &mut Vec<Reader>, reader: Reader)
    requires order { Ascend opening_read groups.old.items }
    requires place { vec_len groups.old < vec_capacity groups.old }
    ensures { (rs : List Row) → AreGrouped opening_read rs groups.old.items
        → AreGrouped opening_read (rs ++ reader ∷ []) groups.new.items }
{
    let place = place_after(groups.as_slice(), reader.opening);
    if groups.insert(place, reader).is_err() {
        unreachable!()
    }
}

/// Whether the reader stands before where the one of this ask does, who waits for the exchange with
/// this opening.
fn is_before(reader: &Reader, opening: u32, ask: u32) -> bool
    ensures { result ≡ is_before opening_read ask_in opening ask reader.now }
{
    reader.opening < opening || (reader.opening == opening && reader.ask < ask)
}

/// The place of the reader of this ask, who waits for the exchange with this opening.
fn group_place(groups: &[Reader], opening: u32, ask: u32) -> Option<usize>
    requires order { Ascend opening_read groups.now }
    requires asks { RiseBy ask_in (filter (reads opening) groups.now) }
    requires there { AllByRecursion (λ (r : Row). has_ask ask r ≡ true → r.opening ≡ opening)
        groups.now }
    ensures below { IfSome result (λ i. i < length groups.now) }
    ensures some { IfSome result (IsOnlyAt (has_ask ask) groups.now) }
    ensures none { result ≡ None → IsNowhere (has_ask ask) groups.now }
{
    let place = groups.partition_point(
        |reader: &Reader| -> bool
            ensures { result ≡ is_before opening_read ask_in opening ask reader.now }
        { is_before(reader, opening, ask) },
    );
    let reader = groups.get(place)?;
    if reader.ask == ask { Some(place) } else { None }
}

/// The same, looked for in this place first: where each exchange has one reader, groups stand as
/// readers do.
fn group_place_from(groups: &[Reader], opening: u32, ask: u32, first: usize) -> Option<usize>
    requires order { Ascend opening_read groups.now }
    requires asks { RiseBy ask_in (filter (reads opening) groups.now) }
    requires there { AllByRecursion (λ (r : Row). has_ask ask r ≡ true → r.opening ≡ opening)
        groups.now }
    ensures below { IfSome result (λ i. i < length groups.now) }
    ensures some { IfSome result (IsOnlyAt (has_ask ask) groups.now) }
    ensures none { result ≡ None → IsNowhere (has_ask ask) groups.now }
{
    if let Some(reader) = groups.get(first) {
        if reader.ask == ask {
            return Some(first);
        }
    }
    group_place(groups, opening, ask)
}

/// Takes out the reader of this ask, who waits for the exchange with this opening, looked for in
/// this place first.
pub fn take_out(groups: &mut Vec<Reader>, opening: u32, ask: u32, first: usize)
    requires order { Ascend opening_read groups.old.items }
    requires asks { RiseBy ask_in (filter (reads opening) groups.old.items) }
    requires there { AllByRecursion (λ (r : Row). has_ask ask r ≡ true → r.opening ≡ opening)
        groups.old.items }
    ensures items { groups.new.items ≡ filter (λ r. not (has_ask ask r)) groups.old.items }
    ensures fewer { vec_len groups.new ≤ vec_len groups.old }
    ensures capacity { vec_capacity groups.new ≡ vec_capacity groups.old }
{
    if let Some(place) = group_place_from(groups.as_slice(), opening, ask, first) {
        groups.remove(place);
    }
}
