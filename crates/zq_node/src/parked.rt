//! Operations that came early.
ghost use Rattle.std.specs.Prelude.{◌≡◌, ◌≢◌, ◌≤◌, ◌<◌, ◌+◌, ◌↔◌, [], IfErr, IfNone, IfOk, IfSome, IsSome, IsTrue, None, OnErr, Some, false, length, true};
ghost use Rattle.zq_dots.specs.Placed.{Placed};
ghost use Rattle.zq_model.specs.Sets as sets;
ghost use Rattle.zq_node.specs.Limits as limits;
ghost use Rattle.zq_node.specs.Parked as parked;
ghost use Rattle.zq_node.specs.Parked.{ArePlaced, HasPlaceOf, IsNext, IsParked, IsReadyAt, IsSiteEarly, IsUpdated};

use std::alloc::{AllocError, AllocFailed, Global};
use std::collections::BTreeMap;
use std::marker::Model;
use zq_dots::{Dot, Op, SITES, SiteNo, Vector};

/// The most operations that are parked, where no other number is given.
pub const MOST_PARKED: usize = 1024;

/// Where an operation is parked: its heap, its site and its counter.
type Place = (u8, u8, u64);

/// Operations that came early, until what they follow has come. It is made for so many, and one that
/// comes again takes no place of its own.
///
/// A site's operations come in the order of their counters, so of those that are parked only the
/// first one of each site can be ready. They are kept by heap, site and counter, so that it is
/// found at once, and a site of which none was parked since the last one left is passed over: what
/// the others cost does not grow with them.
#[derive(Drop)]
pub struct Parked {
    ops: BTreeMap<Place, Op>,
    /// How many there may be.
    most: usize,
    /// Which sites may have operations here.
    sites: [bool; SITES],
}

impl Model for Parked {
    ghost use Rattle.zq_node.specs.Parked.{Parking};
    ghost use Rattle.zq_node.specs.Inside.{IsInside};

    ghost Value = { Parking };

    ghost view = { λ p. record { entries = p.ops.entries; most = p.most } };

    ghost invariant = { IsInside };
}

impl Parked {
    /// None, and a place for at most [`MOST_PARKED`]. It takes no memory.
    pub fn new(alloc: Global) -> Parked
        ensures none { result.entries ≡ [] }
        ensures most { result.most ≡ limits.MOST_PARKED }
    {
        Parked::up_to(alloc, MOST_PARKED)
    }

    /// None, and a place for at most so many. It takes no memory.
    pub fn up_to(alloc: Global, most: usize) -> Parked
        ensures none { result.entries ≡ [] }
        ensures most { result.most ≡ most }
    {
        Parked {
            ops: BTreeMap::new(alloc),
            most,
            sites: [false; SITES],
        }
    }

    /// How many are parked.
    pub fn len(&self) -> usize
        ensures exact { result ≡ length self.now.entries }
        ensures most { result ≤ self.now.most }
    {
        self.ops.len()
    }

    /// Whether as many are parked as there may be.
    pub fn is_full(&self) -> bool
        ensures { IsTrue result ↔ (self.now.most ≤ length self.now.entries) }
    {
        self.ops.len() >= self.most
    }

    /// Parks an operation, in the place of one of its heap and dot. Answers whether it is parked:
    /// where as many are as there may be it is dropped, as if it had been lost, and so it is where
    /// memory is refused.
    pub fn park(&mut self, op: Op) -> Result<bool, AllocError>
        ensures full { IfOk result
            (λ kept. IsTrue kept ↔ (length self.old.entries < self.old.most)) }
        ensures parked { IfOk result (λ kept. IsTrue kept →
            IsUpdated self.old.entries self.new.entries (parked.place_of op) (Some op)) }
        ensures dropped { IfOk result (λ kept. kept ≡ false → self.new ≡ self.old) }
        ensures more { IfOk result (λ kept. IsTrue kept → (HasPlaceOf self.old.entries op → ⊥) →
            length self.new.entries ≡ length self.old.entries + 1) }
        ensures again { IfOk result (λ kept. IsTrue kept → HasPlaceOf self.old.entries op →
            length self.new.entries ≡ length self.old.entries) }
        ensures most { self.new.most ≡ self.old.most }
        ensures refused { OnErr result (self.new ≡ self.old) }
    {
        Ok(self.park_or_return(op)?)
    }

    /// The same, but where memory is refused the operation is given back.
    pub(crate) fn park_or_return(&mut self, op: Op) -> Result<bool, AllocFailed<Op>>
        ensures full { IfOk result
            (λ kept. IsTrue kept ↔ (length self.old.entries < self.old.most)) }
        ensures parked { IfOk result (λ kept. IsTrue kept →
            IsUpdated self.old.entries self.new.entries (parked.place_of op) (Some op)) }
        ensures dropped { IfOk result (λ kept. kept ≡ false → self.new ≡ self.old) }
        ensures more { IfOk result (λ kept. IsTrue kept → (HasPlaceOf self.old.entries op → ⊥) →
            length self.new.entries ≡ length self.old.entries + 1) }
        ensures again { IfOk result (λ kept. IsTrue kept → HasPlaceOf self.old.entries op →
            length self.new.entries ≡ length self.old.entries) }
        ensures most { self.new.most ≡ self.old.most }
        ensures refused { OnErr result (self.new ≡ self.old) }
        ensures given_back { IfErr result (λ failed. failed.value ≡ op) }
    {
        if self.is_full() {
            return Ok(false);
        }
        let place = place_of(&op);
        match self.ops.insert(place, op) {
            Ok(before) => drop(before),
            Err(failed) => {
                let (_, op) = failed.value;
                return Err(AllocFailed { value: op });
            }
        }
        self.sites[place.1 as usize] = true;
        Ok(true)
    }

    /// Whether one of this operation's heap and dot is parked.
    pub fn has_place_of(&self, op: &Op) -> bool
        ensures { (result ≡ true) ↔ HasPlaceOf self.now.entries op.now }
    {
        self.ops.contains_key(&place_of(op))
    }

    /// An operation of this heap that is not Early by this vector, if there is one.
    pub fn ready(&self, heap: u8, vector: &Vector) -> Option<&Op>
        ensures ready { IfSome result
            (λ o. IsParked self.now.entries o.now × (o.now.operation.heap ≡ heap)
            × (sets.taken_of vector.now o.now.operation ≢ sets.Early)) }
        ensures none { IfNone result ((o : Placed) → IsParked self.now.entries o →
            o.operation.heap ≡ heap → sets.taken_of vector.now o.operation ≡ sets.Early) }
    {
        let place = self.ready_place(heap, vector)?;
        self.ops.get(&place)
    }

    /// Lets the operation of this heap and dot go, where one is parked. It takes no memory.
    pub fn leave(&mut self, heap: u8, dot: Dot)
        ensures left { IsUpdated self.old.entries self.new.entries (heap, dot.site, dot.n) None }
        ensures fewer { IsSome (parked.parked_at self.old.entries (heap, dot.site, dot.n)) →
            length self.new.entries + 1 ≡ length self.old.entries }
        ensures none { parked.parked_at self.old.entries (heap, dot.site, dot.n) ≡ None →
            length self.new.entries ≡ length self.old.entries }
        ensures most { self.new.most ≡ self.old.most }
    {
        let site = dot.site.value();
        let _ = self.ops.remove(&(heap, site, dot.n));
        self.settle();
    }

    /// No site has operations here where there are none.
    fn settle(&mut self)
        ensures { self.new ≡ self.old }
    {
        if self.ops.is_empty() {
            self.sites = [false; SITES];
        }
    }

    /// Where an operation of this heap is parked that is not Early by this vector.
    fn ready_place(&self, heap: u8, vector: &Vector) -> Option<Place>
        ensures ready { IfSome result (IsReadyAt self.now.entries heap vector.now) }
        ensures none { IfNone result ((o : Placed) → IsParked self.now.entries o →
            o.operation.heap ≡ heap → sets.taken_of vector.now o.operation ≡ sets.Early) }
    {
        for number in 0..SITES as u8 {
            let may = self.sites[number as usize];
            if let Some(place) = ready_from(&self.ops, may, heap, number, vector) {
                return Some(place);
            }
        }
        None
    }
}

/// Where an operation of this heap and this site is parked that is not Early by this vector, if the
/// site may have any.
fn ready_from(
    ops: &BTreeMap<Place, Op>,
    may: bool,
    heap: u8,
    number: u8,
    vector: &Vector,
) -> Option<Place>
    requires placed { ArePlaced ops.now.entries }
    requires may { (o : Placed) → IsParked ops.now.entries o → o.operation.site ≡ number →
        may ≡ true }
    requires site { number < sets.SITES }
    ensures ready { IfSome result (IsReadyAt ops.now.entries heap vector.now) }
    ensures none { IfNone result (IsSiteEarly ops.now.entries heap vector.now number) }
{
    if may {
        ready_of(ops, heap, number, vector)
    } else {
        None
    }
}

/// Where the first is parked of a site, if it is not Early by this vector.
#[tactic(auto, unfolding(zq_model::specs::Sets::LAST))]
fn ready_of(ops: &BTreeMap<Place, Op>, heap: u8, number: u8, vector: &Vector) -> Option<Place>
    requires placed { ArePlaced ops.now.entries }
    requires site { number < sets.SITES }
    ensures ready { IfSome result (IsReadyAt ops.now.entries heap vector.now) }
    ensures none { IfNone result (IsSiteEarly ops.now.entries heap vector.now number) }
{
    let site = SiteNo::new(number).unwrap();
    let known = vector.get(site);
    let near = (heap, number, 0)..(heap, number, known + 2);
    match ops.range(near).next() {
        None => None,
        Some((place, op)) => {
            if is_early(op, vector) {
                None
            } else {
                Some(*place)
            }
        }
    }
}

/// Whether the operation is neither known nor complete by this vector.
fn is_early(op: &Op, vector: &Vector) -> bool
    ensures early { IsTrue result → sets.taken_of vector.now op.now.operation ≡ sets.Early }
    ensures ready { result ≡ false → sets.taken_of vector.now op.now.operation ≢ sets.Early }
{
    !vector.has(op.dot()) && !vector.covers(op.seen())
}

/// Where the operation is parked.
fn place_of(op: &Op) -> Place
    ensures place { result ≡ parked.place_of op.now }
    ensures site { result.1 < sets.SITES }
    ensures next { IsNext op.now }
{
    let dot = op.dot();
    (op.heap(), dot.site.value(), dot.n)
}
