//! Scopes of masks in place of their stages.

ghost use Rattle.law_narrow.specs.Laws.{ScopesChangeNothing, SynchronizedAsBefore, FirstAsBefore};

use check_access::view_law;
use check_access_order::order_laws;
use program::rule_laws;

/// In a program of formats 1 and 2 without a fault, scopes of masks change no edge and no way in or out of an access (`scopes`);
/// by the order of accesses the same ones are synchronized (`synchronized`), with the same first flaw (`first`). It does nothing.
pub fn narrow_laws()
    ensures scopes { ScopesChangeNothing }
    ensures synchronized { SynchronizedAsBefore }
    ensures first { FirstAsBefore }
{
    rule_laws();
    view_law();
    order_laws();
}
