ghost use Rattle.std.specs.Prelude.{◌≡◌, IfOk};
ghost use Rattle.cd_top.specs.FeedCall.{text_of_feed, FeedEnds};

use cd_base::{Memory, Sink};
use cd_command::{Status, print};
use cd_feed::write_feed;
use cd_gen::make_feed;
use std::alloc::Global;

/// The text of the feed of a number.
fn text_of(alloc: Global, number: u64) -> Result<Vec<u8>, Memory>
    ensures { IfOk result (λ text. text.items ≡ text_of_feed number) }
{
    let feed = make_feed(alloc, number)?;
    write_feed(alloc, &feed)
}

/// The command `gen`: writes the text of the feed of a number.
pub fn print_feed<O: Sink>(alloc: Global, number: u64, out: &mut O) -> Status
    ensures { FeedEnds O.Sink number out.old out.new result }
{
    match text_of(alloc, number) {
        Err(_) => Status::Memory,
        Ok(text) => print(out, &text),
    }
}
