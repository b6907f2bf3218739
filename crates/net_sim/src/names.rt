//! Nets by full name.

ghost use Rattle.std.specs.Prelude.{◌≡◌, ℕ, ◌<◌, ◌↔◌, List, [], ◌∷◌, ◌++◌, All, IsTrue, MatchOption, length};
ghost use Rattle.net_design.specs.Names.{list_at, paths, AreAfterParents};
ghost use Rattle.net_sim.specs.Names.{dotted, full_name, IsCalled};
ghost use Rattle.net_sim.specs.Table.{IsTable};

use crate::table::{Table, place_of};
use net_design::{Instance, Net};

/// What stands before the last part of a text, where it ends in that.
#[tactic(auto, using(crate::proofs::NameLaws::front_none, crate::proofs::NameLaws::front_some))]
fn before<'a>(text: &'a [u8], last: &[u8]) -> Option<&'a [u8]>
    ensures { MatchOption result ((front : List ℕ) → text.now ≡ front ++ last.now → ⊥) (λ front. text.now ≡ front.now ++ last.now) }
{
    text.strip_suffix(last)
}

/// What stands before a name with a dot behind it, where a text ends in these.
fn before_name<'a>(text: &'a [u8], name: &[u8]) -> Option<&'a [u8]>
    ensures { MatchOption result ((front : List ℕ) → text.now ≡ front ++ (name.now ++ 46 ∷ []) → ⊥)
        (λ front. text.now ≡ front.now ++ (name.now ++ 46 ∷ [])) }
{
    match before(text, b".") {
        Some(rest) => before(rest, name),
        None => None,
    }
}

/// Whether a text is the path of instance `i`, each name with a dot behind it.
fn is_path(instances: &[Instance], i: usize, text: &[u8]) -> bool
    requires parents { AreAfterParents instances.now }
    requires within { i < length instances.now }
    ensures { IsTrue result ↔ (dotted (list_at (paths instances.now) i) ≡ text.now) }
{
    if i == 0 {
        return text.is_empty();
    }
    let instance = &instances[i];
    match before_name(text, instance.name.as_slice()) {
        Some(front) => is_path(instances, instance.parent, front),
        None => false,
    }
}

/// Whether a net has this full name.
fn is_called(instances: &[Instance], net: &Net, name: &[u8]) -> bool
    requires parents { AreAfterParents instances.now }
    requires within { net.now.instance < length instances.now }
    ensures { IsTrue result ↔ (full_name instances.now net.now ≡ name.now) }
{
    match before(name, net.name.as_slice()) {
        Some(front) => is_path(instances, net.instance, front),
        None => false,
    }
}

/// The first net with this full name, all looked at in turn.
fn first_called(instances: &[Instance], nets: &[Net], name: &[u8]) -> Option<usize>
    requires parents { AreAfterParents instances.now }
    requires within { All (λ n. n.instance < length instances.now) nets.now }
    ensures { MatchOption result ((m : ℕ) → IsCalled instances.now nets.now name.now m → ⊥)
        (λ m. IsCalled instances.now nets.now name.now m) }
{
    for (m, net) in nets.iter().enumerate() {
        if is_called(instances, net, name) {
            return Some(m);
        }
    }
    None
}

/// Net `m`, where it has this full name, else the first one that has it.
fn called_at(instances: &[Instance], nets: &[Net], name: &[u8], m: usize) -> Option<usize>
    requires parents { AreAfterParents instances.now }
    requires within { All (λ n. n.instance < length instances.now) nets.now }
    requires there { m < length nets.now }
    ensures { MatchOption result ((m : ℕ) → IsCalled instances.now nets.now name.now m → ⊥)
        (λ m. IsCalled instances.now nets.now name.now m) }
{
    if is_called(instances, &nets[m], name) {
        return Some(m);
    }
    first_called(instances, nets, name)
}

/// A net with this full name, by way of the table. All nets are looked at only where the place under the name's number is that of a
/// net of another name.
pub fn net_called(table: &Table, instances: &[Instance], nets: &[Net], name: &[u8]) -> Option<usize>
    requires parents { AreAfterParents instances.now }
    requires within { All (λ n. n.instance < length instances.now) nets.now }
    requires table { IsTable instances.now nets.now (length nets.now) table.now.entries }
    ensures { MatchOption result ((m : ℕ) → IsCalled instances.now nets.now name.now m → ⊥)
        (λ m. IsCalled instances.now nets.now name.now m) }
{
    match place_of(table, name) {
        Some(m) => called_at(instances, nets, name, m),
        None => None,
    }
}
