// Results in lent buffers: written whole at the front, or not at all.
#![tactic(auto)]

ghost use Rattle.std.specs.Prelude.{◌≡◌};
ghost use Rattle.results.specs.Written.{Writes};

use refusal::Refusal;

// How many bytes now stand at the front of the buffer, or 9 and nothing written where they find no room.
pub fn place(bytes: &[u8], buffer: &mut [u8]) -> Result<usize, Refusal>
    ensures { Writes (Ok tt) bytes.now buffer.old result buffer.new }
{
    if buffer.len() < bytes.len() {
        return Err(Refusal::Short);
    }
    buffer[..bytes.len()].copy_from_slice(bytes);
    Ok(bytes.len())
}
