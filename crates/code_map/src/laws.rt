//! What holds of the table itself.

ghost use Rattle.std.specs.Prelude.{◌≡◌, ◌/◌, ℕ, Bool, List, Contains};
ghost use Rattle.code_map.specs.Codes.{status_of, recognised, byte_of};
ghost use Rattle.code_map.specs.Methods.{method_named, name_of};
ghost use Rattle.code_map.specs.declared.method.Method.{Method};

/// A code of class 2 that is not in the table counts as 2.04 (Changed).
pub fn unrecognised_success()
    ensures { (code : ℕ) (has_body : Bool) → code / 32 ≡ 2 → ¬ Contains recognised code
        → status_of code has_body ≡ status_of (byte_of 2 4) has_body }
{}

/// A code of class 4 that is not in the table counts as 4.00 (RFC 7252 section 5.2).
pub fn unrecognised_client_error()
    ensures { (code : ℕ) (has_body : Bool) → code / 32 ≡ 4 → ¬ Contains recognised code
        → status_of code has_body ≡ status_of (byte_of 4 0) has_body }
{}

/// A code of class 5 that is not in the table counts as 5.00 (RFC 7252 section 5.2).
pub fn unrecognised_server_error()
    ensures { (code : ℕ) (has_body : Bool) → code / 32 ≡ 5 → ¬ Contains recognised code
        → status_of code has_body ≡ status_of (byte_of 5 0) has_body }
{}

/// Each method has a name of its own, and no other text is that name: names are case-sensitive
/// (RFC 9110 section 9.1).
pub fn names_are_exact()
    ensures own { (m : Method) → method_named (name_of m) ≡ Some m }
    ensures only { (name : List ℕ) (m : Method) → method_named name ≡ Some m → name ≡ name_of m }
{}
