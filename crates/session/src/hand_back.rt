// What becomes of a slip that was tried on a line.
ghost use Rattle.std.specs.Prelude.{◌≡◌, Some, None};
ghost use Rattle.session.specs.Slips.{why, handed};

use line::refusal::Refusal;
use line::slip::{Returned, Slip};

/// Puts a slip into an empty place.
pub(crate) fn put_back(place: &mut Option<Slip>, slip: Slip)
    requires { place.old ≡ None }
    ensures { place.new ≡ Some slip }
{
    // The place is empty: a slip that lay there could not be let go.
    match place.replace(slip) {
        None => {}
        Some(_) => unreachable!(),
    }
}

/// Puts the slip that a refused call handed back into the empty place that it was taken from.
pub(crate) fn hand_back<A>(
    place: &mut Option<Slip>,
    tried: Result<A, Returned>,
) -> Result<A, Refusal>
    requires { place.old ≡ None }
    ensures answer { result ≡ why tried }
    ensures slip { place.new ≡ handed tried }
{
    match tried {
        Ok(answer) => Ok(answer),
        Err(Returned { slip, refusal }) => {
            put_back(place, slip);
            Err(refusal)
        }
    }
}
