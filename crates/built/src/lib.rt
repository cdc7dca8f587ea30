// What Build writes: of a links image its full image, or the line of its refusal.
#![tactic(auto)]

ghost use Rattle.results.specs.Written.{Writes, room_for};
ghost use Rattle.built.specs.Builds.{longest_build, output_of};

use refusal::Refusal;

// How much it writes at the most.
pub const LONGEST: usize = image::LONGEST;

// What is written for this input, or 9 and nothing written where the longest finds no room. `sheeted` says why it has these lines for itself.
pub fn output(input: &[u8], out: &mut [u8]) -> Result<usize, Refusal>
    ensures { Writes (room_for longest_build out.old) (output_of input.now) out.old result out.new }
{
    if out.len() < LONGEST {
        return Err(Refusal::Short);
    }
    let written = writing::build(input, out);
    lines::told(written, out)
}
