// The checks of an entry's or a replacement's terms. The first that fails refuses the call.
ghost use Rattle.std.specs.Prelude.{◌≡◌};
ghost use Rattle.market.specs.Calls.{verdict, terms_refusal};

use market::legal::{is_legal_price, is_legal_show, is_legal_size, is_legal_user};
use market::types::{Refusal, Terms};

pub(crate) fn check_terms(t: Terms) -> Result<(), Refusal>
    ensures { result ≡ verdict (terms_refusal t) }
{
    Refusal::User.unless(is_legal_user(t.user))?;
    Refusal::Size.unless(is_legal_size(t.size))?;
    Refusal::Price.unless(is_legal_price(t.price))?;
    Refusal::Show.unless(is_legal_show(t.size, t.show, t.kind))
}
