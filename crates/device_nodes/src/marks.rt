//! Begun commands that clash with other nodes.

ghost use Rattle.std.specs.Prelude.{◌≡◌, ◌<◌, ◌==◌, ◌&&◌, ◌||◌, ℕ, not, length, get_or, false};
ghost use Rattle.std.specs.List.{list_any};
ghost use Rattle.device_nodes.specs.Internal.Running.{is_among, IsOfNodes, any_of};
ghost use Rattle.device_model.specs.Ready.{hits, stores_over};
ghost use Rattle.check_access.specs.AccessKinds.{transfers};
ghost use Rattle.check_access.specs.ValidView.{ValidView};
ghost use Rattle.check_access.specs.Views.{accesses_of, clash};

use crate::running::Running;
use base::List;
use check_access::{Access, View};

// Whether the access clashes with what node n does, but for transfers.
fn clashes(view: &View, a: Access, n: u32) -> bool
    requires shaped { ValidView view.now }
    requires n { n < length view.now.nodes }
    requires piece { a.piece < length view.now.pieces }
    ensures { result ≡ list_any (λ b. not (transfers b.kind) && clash view.now a b) (accesses_of view.now n) }
{
    for b in view.effect_at(n).accesses.as_slice() {
        if !b.kind.transfers() && view.clash(a, *b) {
            return true;
        }
    }
    false
}

/// Whether a change by node x clashes with what node n does.
pub(crate) fn hits(view: &View, x: u32, n: u32) -> bool
    requires shaped { ValidView view.now }
    requires x { x < length view.now.nodes }
    requires n { n < length view.now.nodes }
    ensures { result ≡ hits view.now x n }
{
    if x == n {
        return false;
    }
    for a in view.effect_at(x).accesses.as_slice() {
        if a.kind.changes() && clashes(view, *a, n) {
            return true;
        }
    }
    false
}

// Whether node x stores to bytes of the piece.
fn stores_over(view: &View, piece: u32, x: u32) -> bool
    requires shaped { ValidView view.now }
    requires x { x < length view.now.nodes }
    requires piece { piece < length view.now.pieces }
    ensures { result ≡ stores_over view.now piece x }
{
    for a in view.effect_at(x).accesses.as_slice() {
        if a.kind.changes() && view.overlap(a.piece, piece) {
            return true;
        }
    }
    false
}

// Marks node x, where its store clashes with what node n does.
fn mark_one(marked: &mut List<bool>, view: &View, x: u32, n: u32)
    requires shaped { ValidView view.now }
    requires x { x < length view.now.nodes }
    requires n { n < length view.now.nodes }
    requires size { length marked.old ≡ length view.now.nodes }
    ensures size { length marked.new ≡ length marked.old }
    ensures each { (k : ℕ) → get_or marked.new k false ≡ (get_or marked.old k false || ((x == k) && hits view.now x n)) }
{
    if !hits(view, x, n) {
        return;
    }
    marked.set(x as usize, true);
}

/// Marks the begun commands whose store clashes with what node n does.
pub(crate) fn mark(marked: &mut List<bool>, view: &View, running: &Running, n: u32)
    requires shaped { ValidView view.now }
    requires n { n < length view.now.nodes }
    requires nodes { IsOfNodes (length view.now.nodes) running.now }
    requires size { length marked.old ≡ length view.now.nodes }
    ensures size { length marked.new ≡ length marked.old }
    ensures each { (x : ℕ) → get_or marked.new x false ≡ (get_or marked.old x false || (is_among running.now.nodes running.now.count x && hits view.now x n)) }
{
    for i in 0..running.count {
        mark_one(marked, view, running.nodes[i], n);
    }
}

/// Whether node n's store clashes with what a begun command does.
pub(crate) fn hits_running(view: &View, running: &Running, n: u32) -> bool
    requires shaped { ValidView view.now }
    requires n { n < length view.now.nodes }
    requires nodes { IsOfNodes (length view.now.nodes) running.now }
    ensures { result ≡ any_of running.now (λ x. hits view.now n x) }
{
    for i in 0..running.count {
        if hits(view, n, running.nodes[i]) {
            return true;
        }
    }
    false
}

/// Whether a begun command but node n stores to bytes of the piece.
pub(crate) fn is_torn(view: &View, running: &Running, n: u32, piece: u32) -> bool
    requires shaped { ValidView view.now }
    requires piece { piece < length view.now.pieces }
    requires nodes { IsOfNodes (length view.now.nodes) running.now }
    ensures { result ≡ any_of running.now (λ x. not (x == n) && stores_over view.now piece x) }
{
    for i in 0..running.count {
        let x = running.nodes[i];
        if x != n && stores_over(view, piece, x) {
            return true;
        }
    }
    false
}
