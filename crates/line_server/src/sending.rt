//! Whether a reply was written.

ghost use Rattle.std.specs.Prelude.{◌≡◌};
ghost use Rattle.line_server.specs.Leaving.{taken_of};

use crate::answers::Taken;
use reply_sending::Output;

/// How a reply that was written, or wasn't, is told.
pub fn sent(output: Output) -> Taken
    ensures { result ≡ taken_of output }
{
    match output {
        Output::Whole => Taken::Replied,
        Output::Failed => Taken::WriteFault,
    }
}
