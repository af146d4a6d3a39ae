//! What the definitions of reading give.

ghost use Rattle.std.specs.Prelude.{◌≡◌, List, Some, None};
ghost use Rattle.serde_json.specs.Data.{Data};
ghost use Rattle.otlp_spans.specs.Forms.{IsFirstWrong, IsWrong, first_wrong, request_form};
ghost use Rattle.otlp_spans.specs.declared.paths.Step.{Step};

/// The path that reading refuses a line for is the first one at which a part has the wrong form.
pub fn first_wrong_form()
    ensures found { (d : Data) (path : List Step) → first_wrong request_form d ≡ Some path
        → IsFirstWrong request_form d path }
    ensures none { (d : Data) → first_wrong request_form d ≡ None → (path : List Step)
        → IsWrong request_form d path → ⊥ }
{}
