//! The parameters of a handler.

ghost use Rattle.std.specs.Prelude.{◌≡◌, ◌<◌, ◌++◌, ◌∷◌, ℕ, [], None, length, position, slice_index_or, slice_set};
ghost use Rattle.std.specs.Prelude.{IfOk, IfSome, OnOk};
ghost use Rattle.std.specs.Str.{bytes_eq};
ghost use Rattle.ht_values.specs.Text.{folded, same};
ghost use Rattle.name_lists.specs.Places.{AreIndexed, place_in, place_kept};
ghost use Rattle.std.specs.List.{HoldsAt};
ghost use Rattle.name_lists.specs.Parameters.{arguments_of, bindings_of, names_bound, with_argument};
ghost use Rattle.name_lists.specs.declared.parameters.Binding.{Binding};

use crate::bound_names::BoundNames;
use crate::folded_name::FoldedName;
use crate::places::{MOST_SCANNED, NamePlaces, PlaceMap};
use ht_values::Text;
use std::alloc::{AllocError, Global};
use std::marker::Model;
use std::rc::Rc;

/// A name of a parameter, and the number of the argument that it gets, counted from 0.
#[derive(Drop)]
pub struct Binding {
    pub name: FoldedName,
    pub argument: usize,
}

/// The names of a handler's parameters, as they are written. What a call needs of them is made once, and all calls
/// share it.
pub struct Parameters {
    names: Option<Rc<BoundNames>>,
}

/// Written here and not derived, so that it is proved once how they are dropped.
impl Drop for Parameters {
    fn drop(self) {
        let Parameters { names: _ } = self;
    }
}

impl Model for Parameters {
    ghost use Rattle.std.specs.Prelude.{ℕ, List, [], option_map, unwrap_or};

    ghost Value = { List (List ℕ) };

    ghost view = { λ p. unwrap_or (option_map (λ r. r.value) p.names) [] };
}

impl Parameters {
    /// No parameters. It takes no memory.
    pub fn none() -> Parameters
        ensures { result ≡ [] }
    {
        Parameters { names: None }
    }

    /// The parameters of these names.
    pub fn new(alloc: Global, written: Vec<Text>) -> Result<Parameters, AllocError>
        ensures { IfOk result (λ p. p ≡ written.items) }
    {
        let arguments = arguments_in(alloc, &written)?;
        let names = BoundNames::new(alloc, written, arguments)?;
        Ok(Parameters {
            names: Some(Rc::new(alloc, names)?),
        })
    }

    /// The names as they are written.
    pub fn written(&self) -> &[Text]
        ensures { result.now ≡ self.now }
    {
        match &self.names {
            Some(names) => names.written(),
            None => &[],
        }
    }

    /// How many names differ: so many get arguments.
    #[inline]
    pub fn count(&self) -> usize
        ensures { result ≡ length (bindings_of self.now) }
    {
        match &self.names {
            Some(names) => names.count(),
            None => 0,
        }
    }

    /// The name at a place in the order in which those that differ come, with the number of its argument: of a name
    /// that stands twice the last counts. It takes memory only where the name is longer than 16 bytes.
    #[inline]
    pub fn binding(&self, alloc: Global, place: usize) -> Result<Binding, AllocError>
        requires { place < length (bindings_of self.now) }
        ensures { IfOk result (λ b. HoldsAt (λ x. x ≡ b) (bindings_of self.now) place) }
    {
        match &self.names {
            Some(names) => names.binding(alloc, place),
            None => unreachable!(),
        }
    }

    /// Where the names stand that aren't among the first few. It takes no memory; an error where the calls that share
    /// the places can't be counted any more.
    #[inline]
    pub fn places(&self, alloc: Global) -> Result<NamePlaces, AllocError>
        ensures { IfOk result (λ p. AreIndexed (place_kept p) (names_bound (bindings_of self.now))) }
    {
        match &self.names {
            Some(names) => Ok(NamePlaces::of_shared(alloc, names.clone()?)),
            None => Ok(NamePlaces::new(alloc)),
        }
    }
}

/// The numbers of the arguments that names get. Their room is made first, so that what is let go at the end leaves no gap
/// before them.
fn arguments_in(alloc: Global, names: &[Text]) -> Result<Vec<usize>, AllocError>
    ensures { IfOk result (λ a. a.items ≡ arguments_of names.now) }
{
    let mut arguments = Vec::with_capacity(alloc, names.len())?;
    let Bound {
        bindings,
        places: _,
    } = all_bound(alloc, names)?;
    for binding in &bindings {
        arguments.push(binding.argument)?;
    }
    arguments.shrink_to_fit();
    Ok(arguments)
}

/// Names that get arguments, and where those stand that aren't among the first few.
#[derive(Drop)]
struct Bound {
    bindings: Vec<Binding>,
    places: PlaceMap,
}

/// The names with their arguments.
fn all_bound(alloc: Global, names: &[Text]) -> Result<Bound, AllocError>
    ensures bindings { IfOk result (λ b. b.bindings.items ≡ bindings_of names.now) }
    ensures places { IfOk result (λ b. AreIndexed (place_in b.places) (names_bound b.bindings.items)) }
{
    let mut bound = Bound {
        bindings: Vec::with_capacity(alloc, names.len())?,
        places: PlaceMap::new(alloc),
    };
    for (i, name) in names.iter().enumerate() {
        bind(alloc, &mut bound, name, i)?;
    }
    Ok(bound)
}

/// Gives a name the argument of this number.
fn bind(alloc: Global, bound: &mut Bound, name: &Text, argument: usize) -> Result<(), AllocError>
    requires { AreIndexed (place_in bound.old.places) (names_bound bound.old.bindings.items) }
    ensures bindings { OnOk result
        (bound.new.bindings.items ≡ with_argument name.now argument bound.old.bindings.items) }
    ensures places { OnOk result (AreIndexed (place_in bound.new.places) (names_bound bound.new.bindings.items)) }
{
    let name = FoldedName::of_text(alloc, name)?;
    match number_of(bound, &name) {
        Some(i) => {
            set_argument(&mut bound.bindings, i, argument);
            Ok(())
        }
        None => add(alloc, bound, name, argument),
    }
}

/// The place of the name that is the same.
fn number_of(bound: &Bound, name: &FoldedName) -> Option<usize>
    requires { AreIndexed (place_in bound.now.places) (names_bound bound.now.bindings.items) }
    ensures value { result ≡ position (λ b. same b.name name.now) bound.now.bindings.items }
    ensures within { IfSome result (λ i. i < length bound.now.bindings.items) }
{
    let form = name.form();
    if bound.bindings.len() <= MOST_SCANNED {
        return number_among(&bound.bindings, form);
    }
    match number_among(&bound.bindings[..MOST_SCANNED], form) {
        Some(i) => Some(i),
        None => bound.places.get(form),
    }
}

/// The place of the name with this folded form, where these are looked at one by one.
fn number_among(bindings: &[Binding], form: &[u8]) -> Option<usize>
    ensures value { result ≡ position (λ b. bytes_eq (folded b.name) form.now) bindings.now }
    ensures within { IfSome result (λ i. i < length bindings.now) }
{
    bindings
        .iter()
        .position(|binding| binding.name.has_form(form))
}

/// Gives the name at a place another argument.
fn set_argument(bindings: &mut Vec<Binding>, i: usize, argument: usize)
    requires { i < length bindings.old.items }
    ensures value { (other : Binding) → bindings.new.items ≡ slice_set bindings.old.items i
        (record (slice_index_or bindings.old.items i other) { argument = argument }) }
    ensures names { names_bound bindings.new.items ≡ names_bound bindings.old.items }
{
    let binding = &mut bindings[i];
    binding.argument = argument;
}

/// Adds a name that isn't there at the end.
fn add(
    alloc: Global,
    bound: &mut Bound,
    name: FoldedName,
    argument: usize,
) -> Result<(), AllocError>
    requires indexed { AreIndexed (place_in bound.old.places) (names_bound bound.old.bindings.items) }
    requires absent { position (λ b. same b.name name) bound.old.bindings.items ≡ None }
    ensures bindings { OnOk result (bound.new.bindings.items
        ≡ bound.old.bindings.items ++ record { name = name; argument = argument } ∷ []) }
    ensures places { OnOk result (AreIndexed (place_in bound.new.places) (names_bound bound.new.bindings.items)) }
{
    if bound.bindings.len() < MOST_SCANNED {
        bound.bindings.push(Binding { name, argument })?;
        return Ok(());
    }
    bound.places.keep(alloc, name.form(), bound.bindings.len())?;
    bound.bindings.push(Binding { name, argument })?;
    Ok(())
}
