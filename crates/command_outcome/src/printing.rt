ghost use Rattle.command_outcome.specs.Ends.{Serves, Shelf};
ghost use Rattle.command_outcome.specs.Tasks.{print_task};

use crate::outcome::Stop;
use std::alloc::Global;

/// What a command writes that reads nothing and prints this text.
pub fn print_text(alloc: Global, text: &str) -> Result<Vec<u8>, Stop>
    ensures { (at : Shelf) → Serves (print_task text.now) at at result }
{
    let text = text.as_bytes().to_vec(alloc)?;
    Ok(text)
}
