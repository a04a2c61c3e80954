//! A set of values for each variable, with marks that can be taken back.

ghost use Rattle.std.specs.Prelude.{◌≡◌, ℕ, ◌+◌, ◌^◌, ◌<◌, ◌≤◌, List, [], ◌∷◌, ◌++◌, length, map, nat_le, nat_lt, nat_eq, not, All, OnOk};
ghost use Rattle.std.specs.Prelude.{OnErr, IfOk, replicate, ◌-◌};
ghost use Rattle.un_domains.specs.Sets.{Sets, set_at, has, least, greatest, NoneEmpty};
ghost use Rattle.un_domains.specs.Cuts.{Contents, IsCut};
ghost use Rattle.un_domains.specs.Domains.{IsDomain, values_of};
ghost use Rattle.un_domains.specs.Shapes.{IsStore, sets_of};
ghost use Rattle.un_domains.specs.ShapeLaws.{IsAdded};

use crate::bounds::has;
use crate::cut::Cut;
use crate::domain::Domain;
use crate::ends::{all_ends, ends_at, note};
use crate::places::{count, place_of, places_to};
use crate::rows::{bounds_at, count_at, drop_place, keep_before, keep_from, keep_only, row};
use crate::scan::WORD;
use crate::shape::Shape;
use crate::trail::Words;
use std::alloc::{AllocError, Global};
use std::marker::Model;
use un_base::ids::VarId;
use un_base::memory_error::NoMemory;

/// How many marks there may be at once.
const MOST_MARKS: usize = u32::MAX as usize;

/// A set of values for each variable, and the sets of each mark. Contracts see the lists of the values, rising. The store
/// has failed where some set is empty. A set is the bounds and the bits of the places in the variable's first domain: a
/// cut costs the words that it passes. The least and the greatest value of each variable are noted beside the sets, so that a
/// look at them costs a word.
#[derive(Drop)]
pub struct Store {
    alloc: Global,
    shapes: Vec<Shape>,
    words: Words,
    noted: Words,
}

impl Model for Store {
    ghost use Rattle.std.specs.Prelude.{map};
    ghost use Rattle.un_domains.specs.Cuts.{Contents};
    ghost use Rattle.un_domains.specs.Noted.{IsWhole};
    ghost use Rattle.un_domains.specs.Shapes.{sets_of};

    ghost Value = { Contents };

    ghost view = { λ a. record { sets = sets_of a.shapes.items a.words.words; marked = map (sets_of a.shapes.items) a.words.marked } };

    ghost invariant = { λ a. IsWhole a.shapes.items a.words a.noted };
}

/// As many words, with all their bits.
fn fill(words: &mut Vec<u64>, n: usize) -> Result<(), AllocError>
    ensures { OnOk result (words.new.items ≡ words.old.items ++ replicate n (2 ^ 64 - 1)) }
{
    for _ in 0..n {
        words.push(u64::MAX)?;
    }
    Ok(())
}

/// The words of one variable more, at the end: all places of the domain.
fn add(words: &mut Vec<u64>, first: Domain) -> Result<Shape, AllocError>
    requires { IsDomain first }
    ensures { IfOk result (λ h. IsAdded first h words.old.items words.new.items) }
{
    let at = words.len();
    let end = count(&first);
    let n = (end + (WORD - 1)) / WORD;
    words.push(0)?;
    words.push(end as u64)?;
    fill(words, n)?;
    Ok(Shape { at, n, first })
}

/// The shapes and words of these variables, where there were none.
fn lay(
    domains: Vec<Domain>,
    shapes: &mut Vec<Shape>,
    words: &mut Vec<u64>,
) -> Result<(), AllocError>
    requires few { length domains.items < 2 ^ 32 }
    requires each { All IsDomain domains.items }
    requires none { shapes.old.items ≡ [] }
    ensures store { OnOk result (IsStore shapes.new.items words.new.items []) }
    ensures sets { OnOk result (sets_of shapes.new.items words.new.items ≡ map values_of domains.items) }
{
    for domain in domains {
        let shape = add(words, domain)?;
        shapes.push(shape)?;
    }
    Ok(())
}

/// The same shapes once more.
fn copy_shapes(alloc: Global, shapes: &[Shape]) -> Result<Vec<Shape>, AllocError>
    ensures { IfOk result (λ same. same.items ≡ shapes.now) }
{
    let mut same = Vec::new(alloc);
    for shape in shapes {
        let first = shape.first.copy()?;
        same.push(Shape {
            at: shape.at,
            n: shape.n,
            first,
        })?;
    }
    Ok(same)
}

impl Store {
    ghost use Rattle.un_domains.specs.Domains.{values_of, IsDomain};

    /// The store in which each variable has all values of its domain, without marks.
    pub fn new(alloc: Global, domains: Vec<Domain>) -> Result<Store, NoMemory>
        requires few { length domains.items < 2 ^ 32 }
        requires each { All IsDomain domains.items }
        ensures sets { IfOk result (λ s. s.sets ≡ map values_of domains.items) }
        ensures marked { IfOk result (λ s. s.marked ≡ []) }
    {
        let mut words = Vec::new(alloc);
        let mut shapes = Vec::new(alloc);
        lay(domains, &mut shapes, &mut words)?;
        let noted = all_ends(alloc, words.as_slice(), shapes.as_slice())?;
        Ok(Store {
            alloc,
            shapes,
            words: Words::new(alloc, words),
            noted: Words::new(alloc, noted),
        })
    }

    /// There are fewer than 2^32 variables and fewer than 2^32 marks, each mark has as many sets, none of them empty, and two values
    /// of a variable are a choice.
    pub fn facts(&self)
        ensures few { length self.now.sets < 2 ^ 32 }
        ensures marks { length self.now.marked < 2 ^ 32 }
        ensures full { All NoneEmpty self.now.marked }
        ensures long { All (λ m. length m ≡ length self.now.sets) self.now.marked }
        ensures spread { (v : ℕ) → 1 < length (set_at self.now.sets v)
            → least (set_at self.now.sets v) < greatest (set_at self.now.sets v) }
    {
        let _ = &self.shapes;
    }

    /// How many variables there are.
    pub fn len(&self) -> u32
        ensures { result ≡ length self.now.sets }
    {
        self.shapes.len() as u32
    }

    /// The least value of `v`.
    pub fn min(&self, v: VarId) -> u32
        requires there { v.0 < length self.now.sets }
        requires some { 0 < length (set_at self.now.sets v.0) }
        ensures { result ≡ least (set_at self.now.sets v.0) }
    {
        let (least, _) = ends_at(&self.noted, v);
        least as u32
    }

    /// The greatest value of `v`.
    pub fn max(&self, v: VarId) -> u32
        requires there { v.0 < length self.now.sets }
        requires some { 0 < length (set_at self.now.sets v.0) }
        ensures { result ≡ greatest (set_at self.now.sets v.0) }
    {
        let (_, greatest) = ends_at(&self.noted, v);
        greatest as u32
    }

    /// How many values `v` has, counted word by word.
    pub fn size(&self, v: VarId) -> u32
        requires { v.0 < length self.now.sets }
        ensures { result ≡ length (set_at self.now.sets v.0) }
    {
        let shape = &self.shapes[v.0 as usize];
        count_at(self.words.as_slice(), shape.at, shape.n) as u32
    }

    /// Whether `v` has one value and no other, by a look at its ends.
    pub fn is_single(&self, v: VarId) -> bool
        requires { v.0 < length self.now.sets }
        ensures { result ≡ nat_eq (length (set_at self.now.sets v.0)) 1 }
    {
        let (least, greatest) = ends_at(&self.noted, v);
        least == greatest
    }

    /// Whether `x` is a value of `v`.
    pub fn has(&self, v: VarId, x: u32) -> bool
        requires { v.0 < length self.now.sets }
        ensures { result ≡ has (set_at self.now.sets v.0) x }
    {
        let (least, greatest) = ends_at(&self.noted, v);
        if (x as u64) < least {
            return false;
        }
        if greatest < x as u64 {
            return false;
        }
        if least == x as u64 {
            return true;
        }
        if x as u64 == greatest {
            return true;
        }
        let shape = &self.shapes[v.0 as usize];
        let k = place_of(&shape.first, x);
        let words = self.words.as_slice();
        has(row(words, shape.at, shape.n), bounds_at(words, shape.at), k)
    }

    /// Keeps the values of `v` that are at most `x`. It takes no memory.
    pub fn keep_le(&mut self, v: VarId, x: u32) -> Cut
        requires { v.0 < length self.old.sets }
        ensures { IsCut (λ y. nat_le y x) v.0 self.old self.new result }
    {
        let (least, greatest) = ends_at(&self.noted, v);
        if least <= greatest && greatest <= x as u64 {
            return Cut::Same;
        }
        let shape = &self.shapes[v.0 as usize];
        let k = places_to(&shape.first, x);
        let cut = keep_before(&mut self.words, shape.at, shape.n, k);
        note(&mut self.noted, v, self.words.as_slice(), shape);
        cut
    }

    /// Keeps the values of `v` that are greater than `x`. It takes no memory.
    pub fn keep_gt(&mut self, v: VarId, x: u32) -> Cut
        requires { v.0 < length self.old.sets }
        ensures { IsCut (λ y. nat_lt x y) v.0 self.old self.new result }
    {
        let (least, greatest) = ends_at(&self.noted, v);
        if least <= greatest && (x as u64) < least {
            return Cut::Same;
        }
        let shape = &self.shapes[v.0 as usize];
        let k = places_to(&shape.first, x);
        let cut = keep_from(&mut self.words, shape.at, shape.n, k);
        note(&mut self.noted, v, self.words.as_slice(), shape);
        cut
    }

    /// Keeps `x` alone of the values of `v`. It takes no memory.
    pub fn keep_eq(&mut self, v: VarId, x: u32) -> Cut
        requires { v.0 < length self.old.sets }
        ensures { IsCut (λ y. nat_eq y x) v.0 self.old self.new result }
    {
        let (least, greatest) = ends_at(&self.noted, v);
        if least == greatest && least == x as u64 {
            return Cut::Same;
        }
        let shape = &self.shapes[v.0 as usize];
        let k = place_of(&shape.first, x);
        let cut = keep_only(&mut self.words, shape.at, shape.n, k);
        note(&mut self.noted, v, self.words.as_slice(), shape);
        cut
    }

    /// Takes `x` from the values of `v`. It takes no memory.
    pub fn drop_value(&mut self, v: VarId, x: u32) -> Cut
        requires there { v.0 < length self.old.sets }
        requires some { 0 < length (set_at self.old.sets v.0) }
        ensures { IsCut (λ y. not (nat_eq y x)) v.0 self.old self.new result }
    {
        let (least, greatest) = ends_at(&self.noted, v);
        if (x as u64) < least {
            return Cut::Same;
        }
        if greatest < x as u64 {
            return Cut::Same;
        }
        let shape = &self.shapes[v.0 as usize];
        let k = place_of(&shape.first, x);
        let cut = drop_place(&mut self.words, shape.at, shape.n, k);
        note(&mut self.noted, v, self.words.as_slice(), shape);
        cut
    }

    /// How many marks there are.
    pub fn marks(&self) -> u32
        ensures { result ≡ length self.now.marked }
    {
        self.words.marks() as u32
    }

    /// A mark of the sets as they are. Room for each word is taken here, so that cuts take none. There is none after `MOST_MARKS`
    /// marks. After want of memory nothing changed.
    pub fn mark(&mut self) -> Result<(), NoMemory>
        requires { NoneEmpty self.old.sets }
        ensures ok { OnOk result (self.new.marked ≡ self.old.marked ++ self.old.sets ∷ []) }
        ensures sets { self.new.sets ≡ self.old.sets }
        ensures err { OnErr result (self.new ≡ self.old) }
    {
        if self.words.marks() >= MOST_MARKS {
            return Err(NoMemory);
        }
        self.noted.mark(self.alloc)?;
        if self.words.mark(self.alloc).is_err() {
            self.noted.undo();
            return Err(NoMemory);
        }
        Ok(())
    }

    /// Takes the sets of the last mark back, and that mark away. It takes no memory, and costs what was saved since.
    pub fn undo(&mut self)
        requires { 0 < length self.old.marked }
        ensures marked { self.old.marked ≡ self.new.marked ++ self.new.sets ∷ [] }
        ensures live { NoneEmpty self.new.sets }
    {
        self.words.undo();
        self.noted.undo();
    }

    /// A store with the same sets, and without marks.
    pub fn copy(&self, alloc: Global) -> Result<Store, NoMemory>
        ensures sets { IfOk result (λ s. s.sets ≡ self.now.sets) }
        ensures marked { IfOk result (λ s. s.marked ≡ []) }
    {
        let shapes = copy_shapes(alloc, self.shapes.as_slice())?;
        let words = self.words.as_slice().to_vec(alloc)?;
        let noted = self.noted.as_slice().to_vec(alloc)?;
        Ok(Store {
            alloc,
            shapes,
            words: Words::new(alloc, words),
            noted: Words::new(alloc, noted),
        })
    }
}
