//! What a person is told of the text of a change that is refused.
ghost use Rattle.std.specs.Prelude.{IfOk};
ghost use Rattle.std.specs.String.{string_bytes};
ghost use Rattle.st_explain.specs.Messages.{ExplainsFirst};

use st_explain::explain_text;
use st_remarks::Explainer;
use std::alloc::{AllocError, Global};

/// Explains the text of a change as that of a file.
#[derive(Debug, Drop)]
pub struct TextExplainer;

impl Explainer for TextExplainer {
    fn explain(
        &self,
        alloc: Global,
        file: &str,
        text: &[u8],
        main: &[u8],
    ) -> Result<String, AllocError>
        ensures { IfOk result (λ told. ExplainsFirst file.now text.now main.now
            (string_bytes told)) }
    {
        explain_text(alloc, file, text, main)
    }
}
