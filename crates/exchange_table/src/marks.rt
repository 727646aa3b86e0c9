//! The marks of exchanges: so those that may have been opened for the same key, or the same place,
//! are found without going through all.

ghost use Rattle.std.specs.Prelude.{◌≡◌, ◌≤◌, ◌<◌, ◌%◌, ◌∷◌, ◌++◌, [], List, None, true, IfSome, filter, length, nat_lt, not, vec_capacity, vec_len};
ghost use Rattle.std.specs.List.{AllByRecursion, position};
ghost use Rattle.exchange_table.specs.declared.marks.Mark.{Mark as Row};
ghost use Rattle.exchange_table.specs.Groups.{AreGrouped, Ascend, IsFirstFrom, is_before, is_beside};
ghost use Rattle.exchange_table.specs.Marks.{digest_in, has_digest, is_mark_of, opening_marked};
ghost use Rattle.exchange_table.specs.Places.{RiseBy, IsOnlyAt, IsNowhere};

/// A digest of what an exchange was opened for, with its opening. It has eight bytes: where one
/// comes or goes, what stands after it is moved.
#[derive(Clone, Copy)]
pub struct Mark {
    /// the lower half of the digest
    pub digest: u32,
    /// the number of the entry that opened the exchange
    pub opening: u32,
}

/// The half of a digest that marks have.
pub fn half_of(digest: u64) -> u32
    ensures { result ≡ digest % 4294967296 }
{
    (digest % 4294967296) as u32
}

/// The first place of those with this digest, or a higher one.
fn first_from(marks: &[Mark], digest: u64) -> usize
    requires { Ascend digest_in marks.now }
    ensures { IsFirstFrom digest_in digest marks.now result }
{
    marks.partition_point(
        |mark: &Mark| -> bool
            ensures { result ≡ nat_lt mark.now.digest digest }
        { u64::from(mark.digest) < digest },
    )
}

/// The first place of one with another digest.
fn first_beside(marks: &[Mark], digest: u32) -> Option<usize>
    ensures { result ≡ position (is_beside digest_in digest) marks.now }
{
    marks.iter().position(|mark| mark.digest != digest)
}

/// Those with this digest, where they stand first.
fn run_of(marks: &[Mark], digest: u32) -> &[Mark]
    requires order { Ascend digest_in marks.now }
    requires first { AllByRecursion (λ (m : Row). digest ≤ m.digest) marks.now }
    ensures { result.now ≡ filter (has_digest digest) marks.now }
{
    match first_beside(marks, digest) {
        Some(end) => &marks[..end],
        None => marks,
    }
}

/// Those with this digest, in the order of their openings.
pub fn marked(marks: &[Mark], digest: u32) -> &[Mark]
    requires { Ascend digest_in marks.now }
    ensures { result.now ≡ filter (has_digest digest) marks.now }
{
    let first = first_from(marks, u64::from(digest));
    run_of(&marks[first..], digest)
}

/// Puts the mark of what has this digest and this opening after those with the same digest. There
/// is a place for it.
pub fn put_mark(marks: &mut Vec<Mark>, digest: u32, opening: u32)
    requires order { Ascend digest_in marks.old.items }
    requires place { vec_len marks.old < vec_capacity marks.old }
    ensures { (ms : List Row) → AreGrouped digest_in ms marks.old.items
        → AreGrouped digest_in (ms ++ record { digest = digest; opening = opening } ∷ [])
        marks.new.items }
{
    let place = first_from(marks.as_slice(), u64::from(digest) + 1);
    if marks.insert(place, Mark { digest, opening }).is_err() {
        unreachable!()
    }
}

/// Whether the mark stands before where one with this digest and this opening does.
fn is_before(mark: &Mark, digest: u32, opening: u32) -> bool
    ensures { result ≡ is_before digest_in opening_marked digest opening mark.now }
{
    mark.digest < digest || (mark.digest == digest && mark.opening < opening)
}

/// The place of the mark with this opening, which has this digest.
fn mark_place(marks: &[Mark], digest: u32, opening: u32) -> Option<usize>
    requires order { Ascend digest_in marks.now }
    requires openings { RiseBy opening_marked (filter (has_digest digest) marks.now) }
    requires there { AllByRecursion (λ (m : Row). is_mark_of opening m ≡ true → m.digest ≡ digest)
        marks.now }
    ensures below { IfSome result (λ i. i < length marks.now) }
    ensures some { IfSome result (IsOnlyAt (is_mark_of opening) marks.now) }
    ensures none { result ≡ None → IsNowhere (is_mark_of opening) marks.now }
{
    let place = marks.partition_point(
        |mark: &Mark| -> bool
            ensures { result ≡ is_before digest_in opening_marked digest opening mark.now }
        { is_before(mark, digest, opening) },
    );
    let mark = marks.get(place)?;
    if mark.opening == opening {
        Some(place)
    } else {
        None
    }
}

/// Takes out the mark with this opening, which has this digest.
pub fn take_mark(marks: &mut Vec<Mark>, digest: u32, opening: u32)
    requires order { Ascend digest_in marks.old.items }
    requires openings { RiseBy opening_marked (filter (has_digest digest) marks.old.items) }
    requires there { AllByRecursion (λ (m : Row). is_mark_of opening m ≡ true → m.digest ≡ digest)
        marks.old.items }
    ensures { marks.new.items ≡ filter (λ m. not (is_mark_of opening m)) marks.old.items }
{
    if let Some(place) = mark_place(marks.as_slice(), digest, opening) {
        marks.remove(place);
    }
}
