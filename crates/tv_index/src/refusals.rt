//! Refusals whose directory isn't handed on.
ghost use Rattle.std.specs.Prelude.{◌≡◌};

use tv_base::TantivyError;
use tv_managed::Refused;

/// The error of a refusal. Takes no memory.
pub(crate) fn error_of<D: Drop>(refused: Refused<D>) -> TantivyError
    ensures { result ≡ refused.error }
{
    let Refused {
        error,
        directory: _,
    } = refused;
    error
}
