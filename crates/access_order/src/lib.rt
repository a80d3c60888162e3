// Which of the causes from 22 on speaks: the one place that knows their order.
#![tactic(auto)]

ghost use Rattle.std.specs.Prelude.{◌≡◌};
ghost use Rattle.access_order.specs.Told.{first_of};

// The first cause that holds, in document 01's order, if one does: the variable isn't to be written, the value is of another kind, it is out of bounds,
// it is no text for it, it isn't listed in the map, the variable isn't inside the window.
#[tactic(auto, unfolding(crate::specs::Told::first_of))]
pub fn first_cause(
    withheld: bool,
    unlike: bool,
    beyond: bool,
    unfit: bool,
    unlisted: bool,
    outside: bool,
) -> Option<usize>
    ensures { result ≡ first_of withheld unlike beyond unfit unlisted outside }
{
    if withheld {
        Some(27)
    } else if unlike {
        Some(22)
    } else if beyond {
        Some(23)
    } else if unfit {
        Some(25)
    } else if unlisted {
        Some(24)
    } else if outside {
        Some(26)
    } else {
        None
    }
}
