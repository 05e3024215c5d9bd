//! The first phase of a run: the texts that a command needs are fetched. No sink is in scope here.
ghost use Rattle.std.specs.Prelude.{◌≡◌, Ok, Err, IfOk, IfErr};
ghost use Rattle.mls_io.specs.Stores.{Follows};
ghost use Rattle.mls_top.specs.Refusals.{text_at};
ghost use Rattle.mls_top.specs.steps.Answering.{IsStop, IsCausedStop};
ghost use Rattle.mls_top.specs.steps.Fetching.{Learns};

use crate::answer::{Answer, Halt, Stop};
use crate::lines::{not_found_line, too_long_line};
use crate::status::Status;
use mls_io::store::{Fetch, Store};
use std::alloc::Global;

/// The bytes of a file that has at most `limit`.
pub fn text_of<S: Store>(
    alloc: Global,
    store: &mut S,
    file: &str,
    limit: usize,
) -> Result<Vec<u8>, Stop>
    ensures follows { Follows (S.holdings store.old) (S.holdings store.new) }
    ensures found { IfOk result (λ text. Learns (S.holdings store.old).files (λ f. f ≡ file.now)
        (λ files. text_at files file.now limit ≡ Ok text.items)) }
    ensures refused { IfErr result (IsStop (λ r. Learns (S.holdings store.old).files (λ f. f ≡ file.now)
        (λ files. text_at files file.now limit ≡ Err r))) }
    ensures counted { IfErr result (IsCausedStop (S.holdings store.old) (S.holdings store.new)) }
{
    let mut text = Vec::new(alloc);
    match store.fetch(file, limit, &mut text) {
        Fetch::Found => Ok(text),
        Fetch::Missing => Err(Stop::Refused(Answer {
            status: Status::NoFile,
            text: not_found_line(alloc, file)?,
        })),
        Fetch::Long => Err(Stop::Refused(Answer {
            status: Status::TooLong,
            text: too_long_line(alloc, file, limit)?,
        })),
        Fetch::Failed => Err(Stop::Halt(Halt::ReadFault)),
        Fetch::Memory => Err(Stop::Halt(Halt::Memory)),
    }
}
