//! What an expression may read, and what a name means there.

ghost use Rattle.std.specs.Prelude.{◌≡◌, take};
ghost use Rattle.vlog_size.specs.Names.{meaning_of, place_meaning, fixed, checked, readable_of, readable_in, params_alone};

use crate::scope::{Const, Params, Scope};

/// What an expression may read. A view of a scope takes no memory, and may be copied.
#[derive(Clone, Copy)]
pub struct View<'a> {
    pub params: &'a Params,
    /// The number of parameters that may be read: the first so many.
    pub readable: usize,
    /// The number of parameters that a constant position may read: the first so many.
    pub declared: usize,
    /// The scope whose nets and memories may be read.
    pub places: Option<&'a Scope>,
    /// Whether what a name stands for is at fault where it is read, if it isn't lawful. Else it is
    /// at fault only where it is declared.
    pub is_checked: bool,
}

/// What a name means.
#[derive(Clone, Copy)]
pub enum Meaning {
    /// Its constant, and whether the number is known.
    Parameter { value: Const, known: bool },
    /// A net, or a memory: the width of the net or of a word, that of what a lone index picks, and
    /// the number of bits or words among which it does.
    Place { width: u32, picked: u32, limit: u32 },
    Undeclared,
}

/// What the name of a net or a memory means.
fn place_meaning(scope: &Scope, name: &[u8]) -> Meaning
    ensures { result ≡ place_meaning scope.now.nets scope.now.memories name.now }
{
    if let Some(net) = scope.nets.get(name) {
        return Meaning::Place {
            width: net.width,
            picked: 1,
            limit: net.width,
        };
    }
    match scope.memories.get(name) {
        Some(memory) => Meaning::Place {
            width: memory.width,
            picked: memory.width,
            limit: memory.length,
        },
        None => Meaning::Undeclared,
    }
}

/// What the name means: a parameter, else a net, else a memory.
pub fn meaning_of(view: &View<'_>, name: &[u8]) -> Meaning
    ensures { result ≡ meaning_of (readable_in view.now) name.now }
{
    if let Some(param) = view.params.get_among(view.readable, name) {
        return Meaning::Parameter {
            value: param.value,
            known: param.known,
        };
    }
    match view.places {
        Some(scope) => place_meaning(scope, name),
        None => Meaning::Undeclared,
    }
}

/// What a constant position may read: parameters declared before it.
pub fn fixed<'a>(view: &View<'a>) -> View<'a>
    ensures { readable_in result ≡ fixed (readable_in view.now) }
{
    View {
        params: view.params,
        readable: view.declared,
        declared: view.declared,
        places: None,
        is_checked: view.is_checked,
    }
}

/// The same names, which are checked.
pub fn checked<'a>(view: &View<'a>) -> View<'a>
    ensures { readable_in result ≡ checked (readable_in view.now) }
{
    View {
        is_checked: true,
        ..*view
    }
}

/// The names of a scope, which aren't checked.
#[tactic(auto, using(crate::proofs::Passed::take_whole))]
pub fn whole_view(scope: &Scope) -> View<'_>
    ensures { readable_in result ≡ readable_of scope.now }
{
    View {
        params: &scope.params,
        readable: scope.params.len(),
        declared: scope.declared,
        places: Some(scope),
        is_checked: false,
    }
}

/// The names of parameters alone, which aren't checked.
#[tactic(auto, using(crate::proofs::Passed::take_whole))]
pub fn params_view(params: &Params) -> View<'_>
    ensures { readable_in result ≡ params_alone params.now }
{
    View {
        params,
        readable: params.len(),
        declared: params.len(),
        places: None,
        is_checked: false,
    }
}
