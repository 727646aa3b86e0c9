//! What holds of the rules themselves.

ghost use Rattle.std.specs.Prelude.{◌≡◌, ◌<◌, ℕ, List, All, Bool, Some, Ok, true};
ghost use Rattle.media_map.specs.declared.form.Form.{Form};
ghost use Rattle.media_map.specs.declared.policy.Policy.{Policy};
ghost use Rattle.media_map.specs.declared.wanted.Wanted.{Wanted};
ghost use Rattle.media_map.specs.Texts.{pieces, joined};
ghost use Rattle.media_map.specs.Formats.{Row, table, media_text, format_at};
ghost use Rattle.media_map.specs.Accepting.{IsBest, choices, elements, accept_at};

/// What is wanted is the first of the greatest weight among the elements that can be had.
pub fn best_is_wanted()
    ensures { (policy : Policy) (routes : List (Form × Form)) (value : List ℕ) (w : Wanted)
        → accept_at policy routes value ≡ Ok (Some w) → (weight : ℕ) × (0 < weight)
        × IsBest (choices policy routes (elements value)) (weight, w) }
{}

/// Pieces are all of a text but the separators between them.
pub fn pieces_join()
    ensures { (quotes : Bool) (separator : ℕ) (text : List ℕ)
        → joined separator (pieces quotes separator text) ≡ text }
{}

/// The media type of a format of the table is read back as that format.
pub fn table_returns()
    ensures { (policy : Policy)
        → All (λ (row : Row). format_at policy (media_text row.0) ≡ Ok (Some row.0)) table }
{}

/// Where numbers are passed through, the media type of every format is read back as that format.
pub fn format_returns()
    ensures { (policy : Policy) (format : ℕ) → format < 65536 → policy.pass ≡ true
        → format_at policy (media_text format) ≡ Ok (Some format) }
{}
