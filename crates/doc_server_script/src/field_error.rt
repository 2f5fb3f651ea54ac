//! Why a field or a line was not read.

ghost use Rattle.std.specs.Prelude.{◌≡◌};

use doc_page_parts::failure::Memory;

/// Why a field or a line was not read.
#[derive(Clone, Copy)]
pub enum FieldError {
    /// It stands for nothing.
    Bad,
    Memory,
}

impl From<Memory> for FieldError {
    ghost use Rattle.std.specs.Prelude.{◌≡◌};
    ghost use Rattle.doc_server_script.specs.declared.field_error.FieldError.TheVariants as errors;

    ghost from_gives = { λ _ error. error ≡ errors.Memory };

    fn from(_e: Memory) -> FieldError {
        FieldError::Memory
    }
}
