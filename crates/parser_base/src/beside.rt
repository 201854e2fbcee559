//! Holds what was read while more is read. If reading on fails, these functions drop the value that they hold, so that their
//! callers need not: this makes the proofs of those much cheaper.

ghost use Rattle.std.specs.Prelude.{◌≡◌, Ok, Err, IfErr, IfOk};

use crate::fault::ParseFault;

/// Pairs what was read with what was read before it.
pub fn beside<T: Drop, U: Drop>(
    before: T,
    read: Result<U, ParseFault>,
) -> Result<(T, U), ParseFault>
    ensures ok { IfOk result (λ x. (x.0 ≡ before) × (read ≡ Ok x.1)) }
    ensures err { IfErr result (λ fault. read ≡ Err fault) }
{
    Ok((before, read?))
}
