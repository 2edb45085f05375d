// What a header comes to.
ghost use Rattle.redbin.specs.Reading.{heading_of};
ghost use Rattle.load.specs.Announced.{headed};
ghost use Rattle.load.specs.Ran.{Answers, as_read};

use crate::header::Heading;
use redbin::form::Form;
use redbin::header::is_marked;
use refusal::{Part, Refusal};

// First the type, then the other bits.
#[tactic(auto, unfolding(redbin::specs::Reading::heading_of))]
pub fn heading_of(place: usize, header: u32) -> Result<Heading, Refusal>
    ensures { Answers (λ c. heading_of c place header) (as_read headed result) }
{
    let form = Form::announced(header).map_err(|reason| reason.at(Part::Record, place))?;
    Ok(Heading {
        place,
        form,
        new_line: is_marked(header),
    })
}
