/// What transformers keep: which outputs an input may have, and which inputs are taken. Both speak
/// of the form that a body is in, the form that is wanted, and the bytes.
pub trait Relation {
    ghost use Rattle.std.specs.Prelude.{List, ℕ};
    ghost use Rattle.media_map.specs.declared.form.Form.{Form};

    // from, to, input and output: the output is right for the input
    ghost holds: { Form → Form → List ℕ → List ℕ → Type 0 };

    // from, to and input: the content of the input may not be refused
    ghost takes: { Form → Form → List ℕ → Type 0 };
}
