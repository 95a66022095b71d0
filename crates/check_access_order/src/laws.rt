//! Laws of the order of accesses.

ghost use Rattle.check_access_order.specs.Laws.{GoesThrough, CutsOff, StandsEarlier, HasSingles};
ghost use Rattle.check_access_order.specs.Single.{Single};
ghost use Rattle.check_access_order.specs.Ways.{HasWays};
ghost use Rattle.check_access.specs.ValidView.{ValidView};
ghost use Rattle.check_access.specs.Views.{View};

/// In every view order goes on through an access (`through`), and of the nodes that wait for a stage all stand behind the first
/// for which the stage waits too (`cut`); what is in order stands so in every order of the nodes (`earlier`). Commands that are one
/// operation have one stage (`single`), and then accesses of one node leave and are entered alike (`ways`). It does nothing.
pub fn order_laws()
    ensures single { HasSingles }
    ensures through { (V : View) → GoesThrough V }
    ensures ways { (V : View) → ValidView V → Single V → HasWays V }
    ensures earlier { (V : View) → ValidView V → StandsEarlier V }
    ensures cut { (V : View) → CutsOff V }
{}
