// Calls and answers as lines of text.
ghost use Rattle.std.specs.Prelude.{◌≡◌, IfOk, string_bytes};
ghost use Rattle.replay.specs.Texts.{line_text};

use crews::{Answer, Call};
use net::Fault;
use std::alloc::{AllocError, Global};

// The line that is printed for a call: the call, and behind a colon its answer, a refusal by its number.
pub(crate) fn line(
    heap: Global,
    call: Call,
    answer: Result<Answer, Fault>,
) -> Result<String, AllocError>
    ensures { IfOk result (λ s. string_bytes s ≡ line_text call answer) }
{
    match answer {
        Ok(answer) => format!(in heap; "{call}: {answer}"),
        Err(fault) => {
            let number = fault.refusal.number();
            format!(in heap; "{call}: refused {number}")
        }
    }
}
