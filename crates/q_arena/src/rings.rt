// Doubly linked lists in one table, linked by number: each head stands in a ring with the places of its list, so that a place is
// put in and taken out with no test of the ends. A place notes its owner, and a head how many places it has.
//
// The links of a head are kept by what they differ in from its own number. So a head with no places is all zeros, as is a place that
// was never in a list, and neither need be written.
//
// Where both tables are full, which is asked once in a call, links are read and written without a comparison: `full` is a constant in
// each of two copies of a function.
ghost use Rattle.std.specs.Prelude.{◌≡◌, ◌≤◌, ◌<◌, ◌+◌, ◌-◌, ◌^◌, ◌++◌, ◌∷◌, [], ℕ, length, slice_index_or, slice_set, MatchOption, OnOk, OnErr, List, Contains, ◌⊎◌, vec_len, None, Some, if◌then◌else◌, nat_lt, slice_get, slice_index, Bool, IsTrue};
ghost use Rattle.q_sparse.specs.Rows.{item_at};
ghost use Rattle.q_arena.specs.Nodes.{node_at, turned, held, with_follower, with_leader, IsPut, IsTagged, base};
ghost use Rattle.q_arena.specs.Rings.{IsRelisted, IsFront, AreFull, AreSound, AreApart, Has, without, with_next, rings_of, AreAlike};
ghost use Rattle.q_arena.specs.Chains.{Chains, list_at, following, preceding, HasSameLists, HasSameOwners};

use q_logic::NoMemory;
use q_sparse::{Filling, Sparse};
use std::alloc::Global;
use std::marker::Model;

/// The neighbours of a node, and its tag: the owner of a place, or the count of a head.
#[derive(Clone, Copy)]
pub struct Link {
    next: u32,
    prev: u32,
    tag: u32,
}

// The number of the first head as a node; below it a node is a place.
const HEADS: u32 = 2_147_483_648;

// So many places there may be, and so many heads.
const MOST: usize = 2_147_483_648;

// What is stored of a node that was never written.
const BLANK: Link = Link {
    next: 0,
    prev: 0,
    tag: 0,
};

// The link that a head's stored one stands for, and the reverse.
#[inline(always)]
fn turned(at: u32, link: Link) -> Link
    ensures { result ≡ turned at link }
{
    Link {
        next: link.next ^ at,
        prev: link.prev ^ at,
        tag: link.tag,
    }
}

// The link that is stored at a number.
#[inline(always)]
fn look(row: &Sparse<Link>, at: u32, full: bool) -> Link
    requires at { at < length row.now.items }
    requires full { IsTrue full → IsTrue row.now.full }
    ensures { result ≡ item_at row.now at }
{
    if full {
        row.get_full(at as usize)
    } else {
        *row.look(at as usize)
    }
}

// Stores a link at a number.
#[inline(always)]
fn store(row: &mut Sparse<Link>, at: u32, link: Link, full: bool)
    requires at { at < length row.old.items }
    requires full { IsTrue full → IsTrue row.old.full }
    ensures items { row.new.items ≡ slice_set row.old.items at link }
    ensures none { row.new.none ≡ row.old.none }
    ensures full { row.new.full ≡ row.old.full }
{
    if full {
        row.set_full(at as usize, link);
    } else {
        row.set(at as usize, link);
    }
}

// The link of a head.
#[inline(always)]
fn head_link(heads: &Sparse<Link>, head: u32, full: bool) -> Link
    requires head { head < length heads.now.items }
    requires full { IsTrue full → IsTrue heads.now.full }
    requires few { length heads.now.items ≤ base }
    ensures { (places : List Link) → result ≡ node_at places heads.now.items (base + head) }
{
    turned(HEADS + head, look(heads, head, full))
}

// The link of a place.
#[inline(always)]
fn place_link(places: &Sparse<Link>, at: u32, full: bool) -> Link
    requires at { at < length places.now.items }
    requires full { IsTrue full → IsTrue places.now.full }
    requires few { length places.now.items ≤ base }
    ensures { (heads : List Link) → result ≡ node_at places.now.items heads at }
{
    look(places, at, full)
}

// Writes what follows a node in the ring of a head: the head itself, whose link is at hand and comes back, or a place.
#[inline(always)]
fn set_next(places: &mut Sparse<Link>, own: u32, link: Link, at: u32, next: u32, full: bool) -> Link
    requires own { base ≤ own }
    requires full { IsTrue full → IsTrue places.old.full }
    requires at { (at < length places.old.items) ⊎ (at ≡ own) }
    requires few { length places.old.items ≤ base }
    ensures put { (heads : List Link) → IsPut (held places.old.items heads own link)
        (held places.new.items heads own result) at
        (with_follower (held places.old.items heads own link at) next) }
    ensures places { length places.new.items ≡ length places.old.items }
    ensures none { places.new.none ≡ places.old.none }
    ensures full { places.new.full ≡ places.old.full }
{
    if at == own {
        return Link {
            next,
            prev: link.prev,
            tag: link.tag,
        };
    }
    let seen = look(places, at, full);
    store(
        places,
        at,
        Link {
            next,
            prev: seen.prev,
            tag: seen.tag,
        },
        full,
    );
    link
}

// Writes what is before a node in the ring of a head, alike.
#[inline(always)]
fn set_prev(places: &mut Sparse<Link>, own: u32, link: Link, at: u32, prev: u32, full: bool) -> Link
    requires own { base ≤ own }
    requires full { IsTrue full → IsTrue places.old.full }
    requires at { (at < length places.old.items) ⊎ (at ≡ own) }
    requires few { length places.old.items ≤ base }
    ensures put { (heads : List Link) → IsPut (held places.old.items heads own link)
        (held places.new.items heads own result) at
        (with_leader (held places.old.items heads own link at) prev) }
    ensures places { length places.new.items ≡ length places.old.items }
    ensures none { places.new.none ≡ places.old.none }
    ensures full { places.new.full ≡ places.old.full }
{
    if at == own {
        return Link {
            next: link.next,
            prev,
            tag: link.tag,
        };
    }
    let seen = look(places, at, full);
    store(
        places,
        at,
        Link {
            next: seen.next,
            prev,
            tag: seen.tag,
        },
        full,
    );
    link
}

// Writes the tag of a place. Whether the table is full is a constant in its callers.
#[inline(always)]
fn write_tag(places: &mut Sparse<Link>, at: u32, tag: u32, full: bool)
    requires at { at < length places.old.items }
    requires full { IsTrue full → IsTrue places.old.full }
    requires few { length places.old.items ≤ base }
    ensures tagged { (heads : List Link) → IsTagged (node_at places.old.items heads)
        (node_at places.new.items heads) at tag }
    ensures places { length places.new.items ≡ length places.old.items }
    ensures none { places.new.none ≡ places.old.none }
    ensures full { places.new.full ≡ places.old.full }
{
    let seen = look(places, at, full);
    store(
        places,
        at,
        Link {
            next: seen.next,
            prev: seen.prev,
            tag,
        },
        full,
    );
}

// The same where the table is not full.
#[cold]
#[inline(never)]
fn set_tag_far(places: &mut Sparse<Link>, at: u32, tag: u32)
    requires at { at < length places.old.items }
    requires few { length places.old.items ≤ base }
    ensures tagged { (heads : List Link) → IsTagged (node_at places.old.items heads)
        (node_at places.new.items heads) at tag }
    ensures places { length places.new.items ≡ length places.old.items }
    ensures none { places.new.none ≡ places.old.none }
    ensures full { places.new.full ≡ places.old.full }
{
    write_tag(places, at, tag, false);
}

// Writes the tag of a place.
#[inline(always)]
fn set_tag(places: &mut Sparse<Link>, at: u32, tag: u32, full: bool)
    requires at { at < length places.old.items }
    requires full { IsTrue full → IsTrue places.old.full }
    requires few { length places.old.items ≤ base }
    ensures tagged { (heads : List Link) → IsTagged (node_at places.old.items heads)
        (node_at places.new.items heads) at tag }
    ensures places { length places.new.items ≡ length places.old.items }
    ensures none { places.new.none ≡ places.old.none }
    ensures full { places.new.full ≡ places.old.full }
{
    if full {
        write_tag(places, at, tag, true);
    } else {
        set_tag_far(places, at, tag);
    }
}

// Puts a place in front of the list of a head. Whether both tables are full is a constant in its callers.
#[inline(always)]
fn link_front(
    places: &mut Sparse<Link>,
    heads: &mut Sparse<Link>,
    head: u32,
    place: u32,
    full: bool,
)
    requires head { head < length heads.old.items }
    requires place { place < length places.old.items }
    requires sound { AreSound places.old.items heads.old.items }
    requires full { AreFull full places.old heads.old }
    requires fresh { (m : ℕ) → m < length heads.old.items
        → Has (rings_of (node_at places.old.items heads.old.items) base m) place → ⊥ }
    ensures blanks { AreAlike places.old heads.old places.new heads.new }
    ensures lists { IsRelisted places.old.items heads.old.items places.new.items heads.new.items head
        (place ∷ rings_of (node_at places.old.items heads.old.items) base head) }
{
    let own = HEADS + head;
    let link = head_link(heads, head, full);
    let seen = place_link(places, place, full);
    store(
        places,
        place,
        Link {
            next: link.next,
            prev: own,
            tag: seen.tag,
        },
        full,
    );
    let ahead = Link {
        next: place,
        prev: link.prev,
        tag: link.tag + 1,
    };
    let last = set_prev(places, own, ahead, link.next, place, full);
    store(heads, head, turned(own, last), full);
}

// Puts a place in front of the list of a head, with its owner.
#[inline(always)]
fn link_owned(
    places: &mut Sparse<Link>,
    heads: &mut Sparse<Link>,
    head: u32,
    place: u32,
    owner: u32,
    full: bool,
)
    requires head { head < length heads.old.items }
    requires place { place < length places.old.items }
    requires sound { AreSound places.old.items heads.old.items }
    requires full { AreFull full places.old heads.old }
    requires fresh { (m : ℕ) → m < length heads.old.items
        → Has (rings_of (node_at places.old.items heads.old.items) base m) place → ⊥ }
    ensures { IsFront places.old heads.old places.new heads.new head place owner }
{
    link_front(places, heads, head, place, full);
    write_tag(places, place, owner, full);
}

// The same where a table is not full. It is a call of its own, so that the other way stays small.
#[cold]
#[inline(never)]
fn put_front_far(
    places: &mut Sparse<Link>,
    heads: &mut Sparse<Link>,
    head: u32,
    place: u32,
    owner: u32,
)
    requires head { head < length heads.old.items }
    requires place { place < length places.old.items }
    requires sound { AreSound places.old.items heads.old.items }
    requires fresh { (m : ℕ) → m < length heads.old.items
        → Has (rings_of (node_at places.old.items heads.old.items) base m) place → ⊥ }
    ensures { IsFront places.old heads.old places.new heads.new head place owner }
{
    link_owned(places, heads, head, place, owner, false);
}

// The same, whichever it is.
#[inline(always)]
fn put_front(
    places: &mut Sparse<Link>,
    heads: &mut Sparse<Link>,
    head: u32,
    place: u32,
    owner: u32,
    full: bool,
)
    requires head { head < length heads.old.items }
    requires place { place < length places.old.items }
    requires sound { AreSound places.old.items heads.old.items }
    requires full { AreFull full places.old heads.old }
    requires fresh { (m : ℕ) → m < length heads.old.items
        → Has (rings_of (node_at places.old.items heads.old.items) base m) place → ⊥ }
    ensures { IsFront places.old heads.old places.new heads.new head place owner }
{
    if full {
        link_owned(places, heads, head, place, owner, true);
    } else {
        put_front_far(places, heads, head, place, owner);
    }
}

// Puts a place after one of the list of a head, alike.
#[inline(always)]
fn link_after(
    places: &mut Sparse<Link>,
    heads: &mut Sparse<Link>,
    head: u32,
    after: u32,
    place: u32,
    full: bool,
)
    requires head { head < length heads.old.items }
    requires place { place < length places.old.items }
    requires sound { AreSound places.old.items heads.old.items }
    requires full { AreFull full places.old heads.old }
    requires there { Has (rings_of (node_at places.old.items heads.old.items) base head) after }
    requires fresh { (m : ℕ) → m < length heads.old.items
        → Has (rings_of (node_at places.old.items heads.old.items) base m) place → ⊥ }
    ensures blanks { AreAlike places.old heads.old places.new heads.new }
    ensures lists { IsRelisted places.old.items heads.old.items places.new.items heads.new.items head
        (with_next after place (rings_of (node_at places.old.items heads.old.items) base head)) }
{
    let own = HEADS + head;
    let link = head_link(heads, head, full);
    let before = place_link(places, after, full);
    let counted = Link {
        next: link.next,
        prev: link.prev,
        tag: link.tag + 1,
    };
    let ahead = set_next(places, own, counted, after, place, full);
    let seen = place_link(places, place, full);
    store(
        places,
        place,
        Link {
            next: before.next,
            prev: after,
            tag: seen.tag,
        },
        full,
    );
    let last = set_prev(places, own, ahead, before.next, place, full);
    store(heads, head, turned(own, last), full);
}

// The same where a table is not full. It is a call of its own, so that the other way stays small.
#[cold]
#[inline(never)]
fn put_after_far(
    places: &mut Sparse<Link>,
    heads: &mut Sparse<Link>,
    head: u32,
    after: u32,
    place: u32,
)
    requires head { head < length heads.old.items }
    requires place { place < length places.old.items }
    requires sound { AreSound places.old.items heads.old.items }
    requires there { Has (rings_of (node_at places.old.items heads.old.items) base head) after }
    requires fresh { (m : ℕ) → m < length heads.old.items
        → Has (rings_of (node_at places.old.items heads.old.items) base m) place → ⊥ }
    ensures blanks { AreAlike places.old heads.old places.new heads.new }
    ensures lists { IsRelisted places.old.items heads.old.items places.new.items heads.new.items head
        (with_next after place (rings_of (node_at places.old.items heads.old.items) base head)) }
{
    link_after(places, heads, head, after, place, false);
}

// Puts a place after one of the list of a head.
#[inline(always)]
fn put_after(
    places: &mut Sparse<Link>,
    heads: &mut Sparse<Link>,
    head: u32,
    after: u32,
    place: u32,
    full: bool,
)
    requires head { head < length heads.old.items }
    requires place { place < length places.old.items }
    requires sound { AreSound places.old.items heads.old.items }
    requires full { AreFull full places.old heads.old }
    requires there { Has (rings_of (node_at places.old.items heads.old.items) base head) after }
    requires fresh { (m : ℕ) → m < length heads.old.items
        → Has (rings_of (node_at places.old.items heads.old.items) base m) place → ⊥ }
    ensures blanks { AreAlike places.old heads.old places.new heads.new }
    ensures lists { IsRelisted places.old.items heads.old.items places.new.items heads.new.items head
        (with_next after place (rings_of (node_at places.old.items heads.old.items) base head)) }
{
    if full {
        link_after(places, heads, head, after, place, true);
    } else {
        put_after_far(places, heads, head, after, place);
    }
}

// Takes a place out of the list of a head, alike.
#[inline(always)]
fn unlink(places: &mut Sparse<Link>, heads: &mut Sparse<Link>, head: u32, place: u32, full: bool)
    requires head { head < length heads.old.items }
    requires sound { AreSound places.old.items heads.old.items }
    requires full { AreFull full places.old heads.old }
    requires there { Has (rings_of (node_at places.old.items heads.old.items) base head) place }
    ensures blanks { AreAlike places.old heads.old places.new heads.new }
    ensures lists { IsRelisted places.old.items heads.old.items places.new.items heads.new.items head
        (without place (rings_of (node_at places.old.items heads.old.items) base head)) }
{
    let own = HEADS + head;
    let link = head_link(heads, head, full);
    let seen = place_link(places, place, full);
    let counted = Link {
        next: link.next,
        prev: link.prev,
        tag: link.tag - 1,
    };
    let ahead = set_next(places, own, counted, seen.prev, seen.next, full);
    let last = set_prev(places, own, ahead, seen.next, seen.prev, full);
    store(heads, head, turned(own, last), full);
}

// The same where a table is not full. It is a call of its own, so that the other way stays small.
#[cold]
#[inline(never)]
fn take_out_far(places: &mut Sparse<Link>, heads: &mut Sparse<Link>, head: u32, place: u32)
    requires head { head < length heads.old.items }
    requires sound { AreSound places.old.items heads.old.items }
    requires there { Has (rings_of (node_at places.old.items heads.old.items) base head) place }
    ensures blanks { AreAlike places.old heads.old places.new heads.new }
    ensures lists { IsRelisted places.old.items heads.old.items places.new.items heads.new.items head
        (without place (rings_of (node_at places.old.items heads.old.items) base head)) }
{
    unlink(places, heads, head, place, false);
}

// Takes a place out of the list of a head.
#[inline(always)]
fn take_out(places: &mut Sparse<Link>, heads: &mut Sparse<Link>, head: u32, place: u32, full: bool)
    requires head { head < length heads.old.items }
    requires sound { AreSound places.old.items heads.old.items }
    requires full { AreFull full places.old heads.old }
    requires there { Has (rings_of (node_at places.old.items heads.old.items) base head) place }
    ensures blanks { AreAlike places.old heads.old places.new heads.new }
    ensures lists { IsRelisted places.old.items heads.old.items places.new.items heads.new.items head
        (without place (rings_of (node_at places.old.items heads.old.items) base head)) }
{
    if full {
        unlink(places, heads, head, place, true);
    } else {
        take_out_far(places, heads, head, place);
    }
}

/// For each head a list of places, and for each place its owner.
#[derive(Drop)]
pub struct Rings {
    places: Sparse<Link>,
    heads: Sparse<Link>,
    // whether both tables are full
    full: bool,
}

impl Model for Rings {
    ghost use Rattle.q_arena.specs.Chains.{Chains, lists_of, tags_of};
    ghost use Rattle.q_arena.specs.Rings.{AreRows};

    ghost Value = { Chains };

    ghost view = { λ r. record {
      lists = lists_of r.places.items r.heads.items;
      owners = tags_of r.places.items;
    } };

    ghost invariant = { λ r. AreRows r.full r.places r.heads };
}

impl Rings {
    /// No heads and no places, and whether most of each come into lists or get one, or few do.
    pub fn new(alloc: Global, places: Filling, heads: Filling) -> Rings
        ensures { result ≡ record { lists = []; owners = [] } }
    {
        let places = Sparse::filled(alloc, BLANK, places);
        let heads = Sparse::filled(alloc, BLANK, heads);
        let full = places.is_full() && heads.is_full();
        Rings {
            places,
            heads,
            full,
        }
    }

    pub fn heads(&self) -> usize
        ensures { result ≡ length self.now.lists }
    {
        self.heads.len()
    }

    pub fn room(&self) -> usize
        ensures { result ≡ length self.now.owners }
    {
        self.places.len()
    }

    /// Room for places and heads; the lists stay, and new heads have empty ones.
    pub fn reserve(&mut self, room: usize, heads: usize) -> Result<(), NoMemory>
        ensures room { OnOk result (room ≤ length self.new.owners) }
        ensures heads { OnOk result (heads ≤ length self.new.lists) }
        ensures lists { HasSameLists self.old self.new }
        ensures owners { HasSameOwners self.old self.new }
        ensures kept_room { length self.old.owners ≤ length self.new.owners }
        ensures kept_heads { length self.old.lists ≤ length self.new.lists }
    {
        if room > MOST || heads > MOST {
            return Err(NoMemory);
        }
        self.places.grow(room)?;
        self.heads.grow(heads)
    }

    /// No place is in two lists or twice in one, and each is below the room.
    pub fn distinct(&self)
        ensures apart { (l : ℕ) → AreApart (list_at self.now l) }
        ensures one { (l m p : ℕ) → Has (list_at self.now l) p → Has (list_at self.now m) p
            → l ≡ m }
        ensures below { (l p : ℕ) → Has (list_at self.now l) p → p < length self.now.owners }
        ensures few { length self.now.owners < 4294967296 }
    {
        let _ = &self.places;
    }

    /// How many places the list of a head has.
    pub fn count(&self, head: usize) -> u32
        requires { head < length self.now.lists }
        ensures { result ≡ length (list_at self.now head) }
    {
        self.heads.look(head).tag
    }

    pub fn owner(&self, place: usize) -> u32
        requires { place < length self.now.owners }
        ensures { result ≡ slice_index self.now.owners place }
    {
        self.places.look(place).tag
    }

    /// The first place in the list of a head.
    pub fn first(&self, head: usize) -> Option<usize>
        requires { head < length self.now.lists }
        ensures { result ≡ slice_get (list_at self.now head) 0 }
    {
        place_of(self.heads.look(head).next ^ (HEADS + head as u32))
    }

    /// The place after one of a list.
    pub fn next(&self, place: usize) -> Option<usize>
        requires { (l : ℕ) × Has (list_at self.now l) place }
        ensures { (l : ℕ) → Has (list_at self.now l) place
            → result ≡ following place (list_at self.now l) }
    {
        place_of(self.places.look(place).next)
    }

    /// The place before one of a list.
    pub fn prev(&self, place: usize) -> Option<usize>
        requires { (l : ℕ) × Has (list_at self.now l) place }
        ensures { (l : ℕ) → Has (list_at self.now l) place
            → result ≡ preceding place (list_at self.now l) }
    {
        place_of(self.places.look(place).prev)
    }

    /// Puts a place that is in no list in front of the list of a head.
    #[inline]
    pub fn push_front(&mut self, head: usize, place: usize, owner: u32)
        requires head { head < length self.old.lists }
        requires place { place < length self.old.owners }
        requires fresh { (m : ℕ) → Has (list_at self.old m) place → ⊥ }
        ensures lists { self.new.lists ≡ slice_set self.old.lists head
            (place ∷ list_at self.old head) }
        ensures owners { self.new.owners ≡ slice_set self.old.owners place owner }
    {
        let full = self.full;
        put_front(
            &mut self.places,
            &mut self.heads,
            head as u32,
            place as u32,
            owner,
            full,
        );
    }

    /// Puts a place that is in no list directly after one of the list of a head.
    pub fn insert_after(&mut self, head: usize, after: usize, place: usize, owner: u32)
        requires after { Has (list_at self.old head) after }
        requires place { place < length self.old.owners }
        requires fresh { (m : ℕ) → Has (list_at self.old m) place → ⊥ }
        ensures lists { self.new.lists ≡ slice_set self.old.lists head
            (with_next after place (list_at self.old head)) }
        ensures owners { self.new.owners ≡ slice_set self.old.owners place owner }
    {
        let full = self.full;
        put_after(
            &mut self.places,
            &mut self.heads,
            head as u32,
            after as u32,
            place as u32,
            full,
        );
        set_tag(&mut self.places, place as u32, owner, full);
    }

    /// Takes a place out of the list of a head.
    pub fn remove(&mut self, head: usize, place: usize)
        requires { Has (list_at self.old head) place }
        ensures lists { self.new.lists ≡ slice_set self.old.lists head
            (without place (list_at self.old head)) }
        ensures owners { self.new.owners ≡ self.old.owners }
    {
        let full = self.full;
        take_out(
            &mut self.places,
            &mut self.heads,
            head as u32,
            place as u32,
            full,
        );
    }
}

// The place that a node is, if it is one.
fn place_of(at: u32) -> Option<usize>
    ensures { result ≡ (if nat_lt at base then Some at else None) }
{
    if at < HEADS { Some(at as usize) } else { None }
}
