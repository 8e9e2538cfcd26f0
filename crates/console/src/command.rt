ghost use Rattle.std.specs.Prelude.{◌≡◌, MatchOption};
ghost use Rattle.console.specs.Commands.{Asked, Taken};

// `rbf format IMAGE SECTORS NAME ALLOCATION`, with its numbers read.
#[derive(Clone, Copy, PartialEq, Eq, Debug)]
pub struct FormatCommand<'a> {
    pub image: &'a str,
    pub sectors: usize,
    pub name: &'a str,
    pub allocation: usize,
}

// The format command that five words make, if the first is its name and the two numbers are numbers.
// Each word is a parameter of its own, for the clause speaks of each by its name.
pub fn format_command<'a>(
    verb: &str,
    image: &'a str,
    sectors: &str,
    name: &'a str,
    allocation: &str,
) -> Option<FormatCommand<'a>>
    ensures { MatchOption result (Asked verb.now sectors.now allocation.now → ⊥) (λ c. Asked verb.now sectors.now allocation.now × Taken image.now sectors.now name.now allocation.now c) }
{
    let "format" = verb else {
        return None;
    };
    Some(FormatCommand {
        image,
        sectors: sectors.parse().ok()?,
        name,
        allocation: allocation.parse().ok()?,
    })
}
