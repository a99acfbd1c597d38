//! The canonical text of a file.
ghost use Rattle.std.specs.Prelude.{◌≡◌, ◌≤◌, IfOk, length};
ghost use Rattle.language_base.specs.Limits.{max_text};
ghost use Rattle.query_forms.specs.Terms.{Terms};
ghost use Rattle.query_parser.specs.Plain.{terms_of};
ghost use Rattle.query_parser.specs.Printing.{file_text, unplaced};
ghost use Rattle.query_parser.specs.Reading.{IsFileOf};

use crate::File;
use crate::term_text::print_terms;
use language_base::Bytes;
use std::alloc::{AllocError, Global};

#[tactic(auto, using(crate::proofs::ReadsBack::reads_back))]
pub fn print_file(alloc: Global, file: &File) -> Result<Bytes, AllocError>
    ensures text { IfOk result (λ bytes. bytes ≡ file_text (terms_of file.now)) }
    ensures reads_back { IfOk result (λ bytes. length bytes ≤ max_text → (again : Terms) ×
        IsFileOf bytes again × (unplaced again ≡ unplaced (terms_of file.now))) }
{
    let mut text = Vec::new(alloc);
    print_terms(file.terms(), &mut text)?;
    Ok(Bytes::from_vec(text))
}
